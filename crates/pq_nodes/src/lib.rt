//! What queues that are trees of locked nodes share: a tree of numbered nodes in which several removers sift at once,
//! and nodes that are guarded by a lock word each.
#![tactic(auto)]

mod accesses;
mod guards;
mod laws;
mod layout;
mod locks;
mod plays;
mod rule;

pub use accesses::{look, raise_second, raise_third, store};
pub use guards::Guard;
pub use laws::tree_orders_keep;
pub use layout::{NODE_BASE, NODE_WORDS, lock_of, word_of};
pub use locks::{free_node, free_two, take_node};
pub use rule::NodeRule;
