//! The interface of a shared priority queue, whose callers hold passes, and the plain queue with one caller.
#![tactic(auto)]

mod answers;
mod gates;
mod holds;
mod laws;
mod plain;
mod queue;

pub use answers::{Below, CloseRefusal, CloseWhy, Closed, Inserted, Removed};
pub use gates::{Gate, Open, Point};
pub use holds::{Hold, Pair};
pub use laws::{
    below_where_the_least_is, calls_are_steps, empty_where_nothing_is_left, full_with_one_seat,
    one_seat_has_made_all, one_seat_steps, places_are_calls, sizes_are_bounded,
};
pub use plain::{PlainPass, PlainQueue};
pub use queue::{BoundedQueue, SharedQueue};
