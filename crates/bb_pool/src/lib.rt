//! Branch and bound over a priority queue: the node of least bound first.
#![tactic(auto)]

mod alone;
mod child;
mod children;
mod found;
mod laws;
mod limits;
mod one_pass;
mod outcome;
mod plain;
mod state;
mod store;
mod workers;

pub use limits::MAX_NODES;
pub use outcome::Outcome;
pub use plain::search_plain;
pub use workers::search;
