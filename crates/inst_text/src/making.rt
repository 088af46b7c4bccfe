//! Instances and scripts that are made from a number.

mod generator;
mod knapsacks;
mod laws;
mod scripts;
mod shops;

pub use knapsacks::make_knapsack;
pub use laws::{smallest_made, states_by_hand};
pub use scripts::make_script;
pub use shops::make_shop;
