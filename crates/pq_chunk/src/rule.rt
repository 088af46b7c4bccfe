//! The rule of the table of a chunk queue.
ghost use Rattle.pq_pool.specs.Layout.{builder_word};
ghost use Rattle.pq_chunk.specs.Rules.{chunk_rule};
ghost use Rattle.pq_chunk.specs.Views.{chunk_pool};
ghost use Rattle.pq_chunk.specs.LawsHold.{chunk_lawful, chunk_pool_laws};

use crate::ChunkView;
use pq_pool::{BUILDER_WORD, PoolRule};
use pq_seats::SeatRule;

/// The rule of a chunk queue: what its words and the views of its seats say between any two steps.
pub struct ChunkRule;

impl SeatRule for ChunkRule {
    type Own = ChunkView;

    ghost rule = { chunk_rule };

    ghost lawful = { chunk_lawful };
}

impl PoolRule for ChunkRule {
    const BUILDER: u32 = BUILDER_WORD;

    ghost BUILDER = { builder_word };

    ghost pool = { chunk_pool };

    ghost pool_laws = { chunk_pool_laws };
}
