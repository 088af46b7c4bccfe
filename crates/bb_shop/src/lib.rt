//! The job-shop problem: which start times are feasible, and the tree of dispatch orders in which a search
//! looks for those that end first.
#![tactic(auto)]

mod booking;
mod bounding;
mod branching;
mod judging;
mod laws;
mod machine_load;
mod makespan;
mod node;
mod node_memory;
mod operation_id;
mod planning;
mod prepared_operation;
mod problem;
mod shop;
mod verdict;

pub use booking::Booking;
pub use bounding::greatest_of;
pub use branching::SomeJobs;
pub use laws::{
    best_starts_are_early, bounds_are_below, bounds_are_within, makespan_is_greatest_end,
    one_verdict, root_bound_is_bound, schedules_are_reached, worked_shops,
};
pub use node::ShopNode;
pub use prepared_operation::PreparedOperation;
pub use shop::Shop;
pub use verdict::ShopVerdict;
