//! Where the words of the pool stand in the table: behind the history word and the letters of 16 seats.

/// The builder's word. It is 0, or the number of the seat that builds.
pub const BUILDER_WORD: u32 = 17;

/// The first chunk begins at this word.
pub const FIRST_CHUNK: usize = 50;

/// Each chunk has this many words.
pub const CHUNK_WORDS: usize = 69;

/// The pin word of a seat stands as far behind this one as its number says, from 1 on.
pub const PINS: usize = 17;

/// The grace bit of a seat stands as far behind this one as its number says, from 1 on.
pub const GRACE_BITS: usize = 33;

/// The state of the first chunk. That of each further one stands `CHUNK_WORDS` words behind the last.
pub const FIRST_STATE: usize = 118;

/// The state of a free chunk.
pub const FREE: u64 = 0;

/// The state of a chunk that is being built.
pub const BUILT: u64 = 1;

/// The state of a live chunk.
pub const LIVE: u64 = 2;

/// The state of a young chunk, which is old where the batches turn next.
pub const YOUNG: u64 = 3;

/// The state of an old chunk, which is free where the batches turn next.
pub const OLD: u64 = 4;
