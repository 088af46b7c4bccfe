//! Where the heap's words lie in its table: the heap's lock and the size before the nodes.
ghost use Rattle.std.specs.Prelude.{◌≡◌, ◌≤◌};
ghost use Rattle.pq_model.specs.Limits.{max_capacity};
ghost use Rattle.pq_hunt.specs.Layout as layout;

use pq_nodes::{NODE_BASE, NODE_WORDS};

/// The lock over the size.
pub(crate) const HEAP_LOCK: u32 = 24;

/// How many nodes are in use.
pub(crate) const SIZE: u32 = 25;

/// How many words a heap of this capacity has.
pub(crate) fn word_count(capacity: u32) -> usize
    requires { capacity ≤ max_capacity }
    ensures { result ≡ layout.word_count capacity }
{
    (NODE_BASE + NODE_WORDS + NODE_WORDS * capacity) as usize
}
