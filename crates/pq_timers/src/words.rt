//! The words of timers: a made word that counts the numbers drawn, and for each timer a moment word and a state word,
//! shared by callers that each hold a seat.

mod kept;
mod rule;
mod table;

pub use kept::{Firing, Kept, TimerLimits, TimerView};
pub use table::{TimerSeat, TimerTable};
