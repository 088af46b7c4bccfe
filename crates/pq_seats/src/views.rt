//! What a seat knows and holds. The rule of a table speaks of these values; of them a program makes only `Limits`.
use pq_model::Lane;
use pq_words::Entry;
use std::collections::LinkedList;

/// What a table was opened for: how many entries its queue takes, how many seats it has, and how many words.
#[derive(Clone, Copy, Debug, PartialEq, Eq)]
pub struct Limits {
    pub capacity: u32,
    pub seats: u32,
    pub words: usize,
}

/// What a seat holds. The facts of a queue see the posts of all seats, and nothing else of their views. `O` is what the
/// queue itself keeps for a seat.
pub struct Post<O> {
    /// The number that the seat makes its calls under, from 1 on. A note, and a seat that was joined into another, has
    /// the number 0.
    pub number: u32,
    /// The lock words that the seat holds.
    pub locks: LinkedList<usize>,
    /// The entry of an insert whose mark another seat may place.
    pub flight: Option<Entry>,
    /// The letters that the seat still has to leave: for whom, and which word.
    pub owed: LinkedList<(u32, u64)>,
    /// The queue's own part.
    pub own: O,
}

/// What a seat knows.
pub struct View<O> {
    /// The calls of its pass by number: first its own, then those of the passes that were joined into it.
    pub lanes: LinkedList<Lane>,
    /// All that it has seen of the history lies below this place.
    pub front: u32,
    /// The last word that `try_lock` or `take_letter` read.
    pub read: u64,
    /// How many words these two have read.
    pub reads: u64,
    /// Those of its table.
    pub limits: Limits,
    pub post: Post<O>,
}
