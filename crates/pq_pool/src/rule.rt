//! What the rule of a table with a pool adds.
ghost use Rattle.std.specs.Prelude.{ℕ};
ghost use Rattle.pq_pool.specs.Parts.{PoolPart};
ghost use Rattle.pq_pool.specs.PoolLaws.{PoolLaws};

use pq_seats::SeatRule;

/// The pool's part of the rule of a table.
pub trait PoolRule: SeatRule {
    /// The number of the builder's word, which `try_lock` and `unlock` of `pq_seats` take.
    const BUILDER: u32;

    ghost BUILDER: { ℕ };

    /// Where the pool's part stands in what a view holds of the queue's own.
    ghost pool: { PoolPart Self.Own };

    /// What the rule says of the pool, and which of its steps it always allows.
    ghost pool_laws: { PoolLaws Self.rule pool BUILDER };
}
