//! What the calls of a queue are answered.
use pq_model::Receipt;
use pq_words::Entry;
use std::alloc::Global;
use std::marker::Model;

/// What an insert was answered. The receipt tells the place of the call in the queue's history.
#[derive(Clone, Copy, Debug, PartialEq, Eq)]
pub enum Inserted {
    /// The entry was added.
    Done(Receipt),
    /// Fewer places were free than the queue has seats, so with one seat none, and nothing was added.
    Full(Receipt),
}

/// What a removal was answered. The receipt tells the place of the call in the queue's history.
#[derive(Clone, Copy, Debug, PartialEq, Eq)]
pub enum Removed {
    /// This entry was the least, and was taken.
    Got(Entry, Receipt),
    /// There was no entry to take.
    Empty(Receipt),
}

/// What a removal below a limit was answered. The receipt tells the place of the call in the queue's history.
#[derive(Clone, Copy, Debug, PartialEq, Eq)]
pub enum Below {
    /// This entry was the least, and was taken. Its key is below the limit.
    Got(Entry, Receipt),
    /// There was no entry to take.
    Empty(Receipt),
    /// There were entries, and the least key was the limit or above it.
    Above(Receipt),
}

/// What a queue was when it was closed.
#[derive(Debug, Drop)]
pub struct Closed {
    /// The entries left, in rising order.
    pub left: Vec<Entry>,
    /// How many calls the queue's history has.
    pub length: u32,
}

impl Model for Closed {
    ghost use Rattle.pq_api.specs.Closing.{Remains};

    ghost Value = { Remains };

    ghost view = { λ c. record { left = c.left.items; length = c.length } };
}

/// Why a queue was not closed.
#[derive(Clone, Copy, Debug, PartialEq, Eq)]
pub enum CloseWhy {
    /// This many passes were joined, the given one counted, which is fewer than the queue has seats.
    PassesOut { joined: u32, seats: u32 },
    /// There was no memory for the list of what is left.
    NoMemory,
}

/// A close that was refused, with the queue and the pass as they were given.
#[derive(Drop)]
pub struct CloseRefusal<Q, P> {
    pub queue: Q,
    pub pass: P,
    pub why: CloseWhy,
}
