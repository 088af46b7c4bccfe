//! What the callers of a script leave.
use pq_tape::Tape;

/// What the callers of a script leave.
#[derive(Drop)]
pub struct Lanes<P> {
    /// The first pass, with all others joined into it.
    pub pass: P,
    /// A tape for each lane, in the order of the lanes.
    pub tapes: Vec<Tape>,
}
