//! The words of the command line, read as a command.
#![tactic(auto)]

mod command;
mod command_line;
mod commands;
mod found;
mod laws;
mod limits;
mod queues;
mod ranges;
mod reading;
mod settings;
mod values;

pub use command::{Branching, Command, Kind};
pub use laws::settings_are_said;
pub use limits::Limits;
pub use queues::{Profile, Which};
pub use reading::{WordsRefusal, read_still_words, read_words};
