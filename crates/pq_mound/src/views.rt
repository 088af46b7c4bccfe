//! What a seat's view names of the mound.
use crate::Node;
use pq_nodes::Guard;
use std::collections::LinkedList;

/// A cell that a seat holds: its number, and the words that it has. No program makes a value of it: contracts speak of
/// it.
pub struct OwnCell {
    pub number: u32,
    pub entry: u64,
    pub next: u64,
}

/// The mound's part of a seat's view. No program makes a value of it: contracts speak of it.
pub struct MoundPart {
    /// One for each node whose lock the seat holds, in the order in which they were taken.
    pub guards: LinkedList<Guard<Node>>,
    /// Under the cells' lock: the free cells, from the first on.
    pub free: LinkedList<u32>,
    /// Under the cells' lock: how many cells are free, as the word of their count says.
    pub count: u32,
    /// The cell that the seat holds: in no list, and not free.
    pub held: Option<OwnCell>,
}
