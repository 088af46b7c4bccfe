//! What a verdict on start times says.
/// What is found of start times and the makespan that is stated for them. Jobs and steps are numbered from 0.
#[derive(Clone, Copy, Debug, PartialEq, Eq)]
pub enum ShopVerdict {
    /// The starts are feasible, and their makespan is the stated one.
    Feasible,
    /// The first operation that starts before the end of the one before it in its job.
    BadOrder {
        job: u32,
        step: u32,
    },
    /// The first two operations that overlap on a machine, the first one's job and step and the later one's.
    BadMachine {
        job: u32,
        step: u32,
        other: u32,
        other_step: u32,
    },
    /// The starts are feasible; this is their makespan, which differs from the stated one.
    BadMakespan(u32),
}
