//! What a node of the mound counts as.
use pq_words::Entry;
use std::collections::LinkedList;

/// A cell: its number, and the entry that it holds. Rules and contracts speak of it; no program makes one.
pub struct Cell {
    pub number: u32,
    pub entry: Entry,
}

/// What a node of the mound counts as: its list, from the head on. Rules and contracts speak of it; no program makes
/// one.
pub enum Node {
    /// The list is at rest.
    Resting(LinkedList<Cell>),
    /// The node is the hole of a remover, and this its list.
    Hole(LinkedList<Cell>),
    /// An insert has its place, and its cell counts between these cells before it and these behind it. The last of
    /// those before does not yet lead to it.
    Joining(LinkedList<Cell>, Cell, LinkedList<Cell>),
}
