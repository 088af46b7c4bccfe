//! What the workers of a search share beside the queue: the store of nodes and the control words.
#![tactic(auto)]

mod control;
mod laws;
mod limits;
mod store;
#[cfg(test)]
mod tests;

pub use control::{Control, ControlSeat, Stop, Told};
pub use laws::{
    costs_are_told, drawn_numbers_are_free, first_may_draw_again, joined_draws_are_apart,
    joined_draws_cover, other_numbers_stay_free, stops_are_told,
};
pub use limits::MAX_NODES;
pub use pq_numbers::Draw;
pub use store::{Attempt, Drawn, Numbered, Store, StoreSeat, Stored};
