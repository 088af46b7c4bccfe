//! What a seat knows of the pool. The rule of a table speaks of these values; no program makes one.
use std::collections::LinkedList;

/// The state of each chunk, and the grace bit of each seat.
pub struct PoolState {
    /// By the chunk's number: 0 free, 1 being built, 2 live, 3 young, 4 old.
    pub states: LinkedList<u64>,
    /// By the seat's number, from 0 on. No seat has the number 0.
    pub grace: LinkedList<u64>,
}

/// The pool's part of what a view holds.
pub struct PoolView {
    /// Whether the seat is pinned.
    pub pinned: bool,
    /// The chunks on which it may stand while it is pinned.
    pub stands: LinkedList<u64>,
    /// How often it has come to chunks since it last took the builder's word: once by each pin, and once by each look
    /// under a pin.
    pub looks: u64,
    /// At the holder of the builder's word: the words as they are written.
    pub stored: PoolState,
    /// And as they count. Between the steps of a sweep they are not yet written so.
    pub counted: PoolState,
    /// The pin words that it has loaded since it took the builder's word: whose, and what was read. The last is first.
    pub loaded: LinkedList<(u32, u64)>,
}
