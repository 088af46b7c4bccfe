//! The limits of a pool.

use pq_words::MAX_CHUNK;

/// A pool has at most this many chunks, which are numbered from 0 to `MAX_CHUNK`.
pub const MAX_CHUNKS: u32 = MAX_CHUNK + 1;
