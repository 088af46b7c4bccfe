//! Timers that are armed, cancelled and fired by several callers, each of which ends once: so far their words, as a
//! table that callers share.
#![tactic(auto)]

mod answers;
mod limits;
#[cfg(test)]
mod tests;
mod ticket;
mod words;

pub use answers::Cancel;
pub use limits::{MAX_TIMERS, MOMENT_LIMIT};
pub use ticket::Ticket;
pub use words::{Firing, Kept, TimerLimits, TimerSeat, TimerTable, TimerView};
