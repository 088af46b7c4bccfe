//! The store: nodes by number, moved in and out, and shared by callers that each hold a seat.

mod drawn;
mod nodes;
mod rule;
mod stored;

pub use drawn::Drawn;
pub use nodes::{Store, StoreSeat};
pub use stored::{Attempt, Numbered, Stored};
