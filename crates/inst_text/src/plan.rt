//! Plans that stand behind an instance, with the number that is stated for them.

mod choices;
mod laws;
mod schedules;
mod stated;

pub use choices::{next_choice, read_plan_knapsack};
pub use laws::{
    choices_are_read_behind, knapsack_plan_texts_are_read, shop_plan_texts_are_read,
    starts_are_read_behind, written_choices_are_read, written_starts_are_read,
};
pub use schedules::read_plan_shop;

/// A plan, and the number that its text states for it: the value of a choice, or the makespan of start times.
/// Whether it is so, the text does not say.
#[derive(Debug, Drop)]
pub struct Claimed<T> {
    /// 0 to 4,294,967,295, as the text states it.
    pub stated: u32,
    /// What is claimed to have this value or makespan.
    pub plan: T,
}
