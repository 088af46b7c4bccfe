//! The limits of what workers share.

/// A store has at most this many numbers.
pub const MAX_NODES: u32 = 1_048_560;
