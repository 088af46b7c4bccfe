//! What a seat of a timers' table keeps. No program makes a value of these types but of the limits: contracts speak of
//! them.
use crate::ticket::Ticket;
use std::collections::LinkedList;

/// What a table was opened for: how many seats it has, and how many timers.
#[derive(Clone, Copy, Debug, PartialEq, Eq)]
pub struct TimerLimits {
    pub seats: u32,
    pub timers: u32,
}

/// A timer that was fired, and the moment that it then was.
pub struct Firing {
    pub ticket: Ticket,
    pub now: u32,
}

/// What a seat keeps: the limits of its table, and how many of its seats are this one; its arms, each with its moment
/// and the number that it drew, and those whose state became armed; the timers that it refused, cancelled and fired;
/// those that it found cancelled and fired by a ticket; the number whose moment word it read last, and that word; the
/// number whose state word it read last, and that word; and how many words it read.
pub struct Kept {
    pub limits: TimerLimits,
    pub parts: u32,
    pub arms: LinkedList<Ticket>,
    pub armed: LinkedList<Ticket>,
    pub refused: LinkedList<Ticket>,
    pub cancelled: LinkedList<Ticket>,
    pub fired: LinkedList<Firing>,
    pub was_cancelled: LinkedList<Ticket>,
    pub was_fired: LinkedList<Ticket>,
    pub at: u32,
    pub moment_word: u64,
    pub state_of: u32,
    pub state_word: u64,
    pub reads: u64,
}

/// The view of a seat: what it keeps, the timer that it is about to arm, and whether the moment of it is stored.
pub struct TimerView {
    pub kept: Kept,
    pub arming: Option<Ticket>,
    pub stored: bool,
}
