//! The mound: what its nodes count as, and the facts that hold between any two of its steps.
#![tactic(auto)]

mod accesses;
mod cells;
mod insert;
mod laws;
mod layout;
mod locks;
mod nodes;
mod plays;
mod rule;
mod views;

pub use laws::{
    cells_change_hands, inserts_keep_the_mound, lists_are_linked, mounds_open,
    removals_keep_the_mound,
};
pub use nodes::{Cell, Node};
pub use rule::MoundRule;
pub use views::{MoundPart, OwnCell};
