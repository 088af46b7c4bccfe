//! What a seat of a store keeps. No program makes a value of these types: contracts speak of them.
use pq_numbers::Draw;
use std::collections::LinkedList;

/// A node and its number.
pub struct Numbered<N> {
    pub number: u32,
    pub node: N,
}

/// A number, and what its word was where a seat tried to take the number's node.
pub struct Attempt {
    pub number: u32,
    pub word: u64,
}

/// What a seat keeps: how many seats the store has, and how many of them are this one; its draws, its puts and its
/// takes, in order; and a number below which the made word never was since.
pub struct Stored<N> {
    pub seats: u32,
    pub parts: u32,
    pub draws: LinkedList<Draw>,
    pub puts: LinkedList<Numbered<N>>,
    pub takes: LinkedList<Numbered<N>>,
    pub front: u64,
}

/// The view of a seat: what it keeps, the number under which it is about to put a node, and its attempts to take one,
/// in order.
pub struct StoreView<N> {
    pub kept: Stored<N>,
    pub putting: Option<u32>,
    pub attempts: LinkedList<Attempt>,
}
