//! What a seat of a control keeps. No program makes a value of these types: contracts speak of them.
use super::Stop;
use std::collections::LinkedList;

/// What a seat keeps: how many seats the control has, and how many of them are this one; the least cost that it told
/// and the last that it read; the stops that it set, and the one that it knows to be the first of all; the word that it
/// loaded last, and how many it loaded; and how much it added to the open word, and took away.
pub struct Told {
    pub seats: u32,
    pub parts: u32,
    pub own: Option<u32>,
    pub read: Option<u32>,
    pub stops: LinkedList<Stop>,
    pub first: Option<Stop>,
    pub word: u64,
    pub loads: u64,
    pub opened: u64,
    pub closed: u64,
}
