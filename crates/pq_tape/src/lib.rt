//! The calls of a seat on a tape, the history that tapes make together, and the text of a history,
//! read and written.
#![tactic(auto)]

mod history;
mod tapes;

pub use history::{
    Head, History, MAX_MARKS, history_texts_are_read, read_history, write_history,
    written_histories_are_read,
};
pub use tapes::{Tape, merge};
