//! A plan that a search has found.

ghost use Rattle.std.specs.Prelude.{◌<◌};
ghost use Rattle.pq_words.specs.Limits.{key_limit};

/// A plan that a leaf gave, with its cost, which is a key of a queue.
#[derive(Drop)]
pub(crate) struct Found<P> {
    pub(crate) plan: P,
    pub(crate) cost: u32,
    pub(crate) ghost cost_fits: { cost < key_limit },
}
