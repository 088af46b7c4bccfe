//! Job shops by active branching, with bounds over one machine's heads and tails.
#![tactic(auto)]

mod active_shop;
mod branching;
mod heads;
mod laws;
mod problem;
mod task;
mod visit;

pub use active_shop::ActiveShop;
pub use laws::{
    a_branch_loses_nothing, active_schedules_are_lawful, bounds_are_within, worked_shops,
};
pub use problem::ActiveNode;
pub use task::Task;
pub use visit::Visit;
