//! A node on its way into a queue, or out of one.

ghost use Rattle.std.specs.Prelude.{◌<◌};
ghost use Rattle.pq_words.specs.Limits.{key_limit};

/// A node with its bound, which is a key of a queue.
#[derive(Drop)]
pub(crate) struct Child<N> {
    pub(crate) node: N,
    pub(crate) key: u32,
    pub(crate) ghost key_fits: { key < key_limit },
}
