//! The heap: what its nodes count as, the facts that hold between any two of its steps, and what each step keeps of
//! them.
#![tactic(auto)]

mod accesses;
mod climb;
mod insert;
mod laws;
mod layout;
mod locks;
mod nodes;
mod plays;
mod queue;
mod remove;
mod rule;
mod sift;
mod views;

pub use laws::{
    heaps_open_and_end, inserts_keep_the_heap, nodes_count_as_seen, owners_are_told,
    removals_keep_the_heap, words_mean_one_node,
};
pub use nodes::Node;
pub use queue::HuntHeap;
pub(crate) use rule::HuntTable;
pub use rule::{HuntPass, HuntRule};
pub use views::HuntPart;
