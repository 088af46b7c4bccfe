//! What a command answers.

use crate::status::Status;
use pq_tape::History;

/// What a command answers.
#[derive(Debug, Drop)]
pub enum Answer {
    /// A text, with which it ends `Ok` or `Illegal`.
    Text { status: Status, text: Vec<u8> },
    /// A history, whose text is written mark by mark. With it a command ends `Ok`.
    Trace(History),
}
