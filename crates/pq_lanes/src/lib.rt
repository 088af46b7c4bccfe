//! Scripts of several lanes, run on any bounded queue by one caller for each lane, and the history that comes of it.
#![tactic(auto)]

mod answers;
mod callers;
mod ending;
mod lane;
mod lanes;
mod laws;
mod running;
mod tracing;

pub use answers::{Answer, answer_to_insert, answer_to_remove, answer_to_remove_below};
pub use ending::history_of;
pub use lane::call;
pub use lanes::Lanes;
pub use laws::{drills_leave_nothing, made_scripts_are_drills};
pub use running::run_lanes;
pub use tracing::trace_script;
