//! The limits of a search.

pub use bb_shared::MAX_NODES;

/// A worker that found nothing tries again while its pass has made fewer calls than this.
pub(crate) const IDLE_CALLS: u32 = 1 << 24;
