//! The limits of timers.

/// At most so many timers stand on one queue.
pub const MAX_TIMERS: u32 = 1_048_576;

/// Each moment is below this.
pub const MOMENT_LIMIT: u32 = 67_108_864;
