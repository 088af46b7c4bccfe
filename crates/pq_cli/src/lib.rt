//! The top call: command words and input in, the answer's text and a status out.
#![tactic(auto)]

mod answer;
mod commands;
mod labelled;
mod laws;
mod plain;
mod planning;
mod problem;
mod problems;
mod refusal;
mod reporting;
mod rules;
mod running;
mod status;

pub use cli_words::{Branching, Command, Kind, Which, WordsRefusal, read_words, settings_are_said};
pub use laws::{
    greatest_value_is_best, proofs_are_verified, solutions_are_checked, traces_are_one,
};
pub use reporting::report;
pub use rules::heaps_stand_under_their_rule;
pub use running::{run, run_still};
pub use status::Status;
