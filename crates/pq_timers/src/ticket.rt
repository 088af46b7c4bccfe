//! What names a timer.

/// The number of a timer, and its moment.
#[derive(Clone, Copy, Debug, PartialEq, Eq)]
pub struct Ticket {
    pub number: u32,
    /// Below `MOMENT_LIMIT`.
    pub moment: u32,
}
