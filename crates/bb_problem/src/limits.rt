//! The limits of a problem.

/// Costs and bounds are below this, so at most 67,108,863.
pub const COST_LIMIT: u32 = 1 << 26;

/// A branch has at most so many children.
pub const MAX_CHILDREN: usize = 100;
