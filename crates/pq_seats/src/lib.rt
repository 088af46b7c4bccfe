//! The base of every queue whose callers share one table of words: the history word, the letters, the lock words and
//! the passes, under a rule that each queue adds to.
#![tactic(auto)]

mod draws;
mod joins;
mod laws;
mod letters;
mod locks;
mod plays;
mod rule;
mod seated;
mod shared;
mod views;

pub use laws::{
    back_steps_keep, fields_suffice, helping_steps_keep, own_steps_keep, placing_steps_keep,
    seats_know, silent_steps_keep,
};
pub use rule::{Ruled, SeatRule};
pub use seated::SeatedQueue;
pub use shared::{SeatPass, Shared};
pub use views::{Limits, Post, View};
