//! The one pass of a queue, as a search with one caller uses it.

ghost use Rattle.std.specs.Prelude.{◌≡◌, ◌-◌, ◌<◌, ◌≤◌, length};
ghost use Rattle.pq_words.specs.Limits.{key_limit};
ghost use Rattle.pq_model.specs.Passes.{Knows};
ghost use Rattle.pq_api.specs.Limits.{call_limit};
ghost use Rattle.pq_api.specs.Answers.{IsInserted, IsRemovedBelow, IsBelow};
ghost use Rattle.bb_pool.specs.OneSeat.{OneSeat};

use pq_api::{Below, Inserted, PlainPass};
use pq_words::Entry;

/// The pass of a queue of one seat, with all that its calls take.
pub(crate) trait OnePass: Drop {
    /// The queue, as its pass knows it.
    ghost seat: { Self → OneSeat };

    /// Adds an entry, as `insert` of a shared queue does.
    fn add(&mut self, e: Entry) -> Inserted
        requires few { length (seat self.old).known.calls < call_limit - 1 }
        ensures capacity { (seat self.new).capacity ≡ (seat self.old).capacity }
        ensures call { IsInserted (seat self.old).known e result (seat self.new).known }
        ensures knows { Knows 1 (seat self.old).capacity (seat self.new).known };

    /// Takes the least entry where its key is below the limit, as `remove_below` of a bounded queue does.
    fn take_below(&mut self, limit: u32) -> Below
        requires few { length (seat self.old).known.calls < call_limit - 1 }
        requires limit { limit ≤ key_limit }
        ensures capacity { (seat self.new).capacity ≡ (seat self.old).capacity }
        ensures call { IsRemovedBelow (seat self.old).known limit result (seat self.new).known }
        ensures key { IsBelow limit result }
        ensures knows { Knows 1 (seat self.old).capacity (seat self.new).known };

    /// Is called when the node of an entry that was removed has been taken out of the store.
    fn has_taken(&self);
}

impl OnePass for PlainPass {
    ghost seat = { λ p. record { capacity = p.capacity; known = p.known } };

    #[inline]
    fn add(&mut self, e: Entry) -> Inserted {
        PlainPass::add(self, e)
    }

    #[inline]
    fn take_below(&mut self, limit: u32) -> Below {
        PlainPass::take_below(self, limit)
    }

    fn has_taken(&self) {}
}
