//! The pool of a queue's chunks: pins, the builder's word, the states of chunks, and the batches of retired chunks with
//! a grace bit for each seat.
#![tactic(auto)]

mod bench;
mod chunks;
mod laws;
mod layout;
mod limits;
mod pins;
mod plays;
mod rule;
mod steps;
mod sweeping;
mod views;

pub use bench::{Bench, BenchPass, bench_words};
pub use chunks::{publish, retire, take};
pub use laws::pins_protect;
pub use layout::{BUILDER_WORD, CHUNK_WORDS, FIRST_CHUNK};
pub use limits::MAX_CHUNKS;
pub use pins::{pin, still_stands, unpin};
pub use rule::PoolRule;
pub use views::{PoolState, PoolView};
