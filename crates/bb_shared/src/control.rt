//! The control words: the open nodes, the best cost and the first stop, shared by callers that each hold a seat.

mod rule;
mod stop;
mod told;
mod words;

pub use stop::Stop;
pub use told::Told;
pub use words::{Control, ControlSeat};
