//! The state of a search with one caller, and its two steps on the queue and the store.

ghost use Rattle.std.specs.Prelude.{◌≡◌, ℕ, ◌-◌, ◌<◌, ◌≤◌, length, All, IfOk, IfErr, MatchOption};
ghost use Rattle.pq_words.specs.Limits.{key_limit, id_limit};
ghost use Rattle.pq_api.specs.Limits.{call_limit};

use crate::child::Child;
use crate::found::Found;
use crate::one_pass::OnePass;
use crate::store::Store;
use bb_shared::Stop;
use pq_api::{Below, Inserted, full_with_one_seat, one_seat_has_made_all, one_seat_steps};
use pq_words::{Entry, KEY_LIMIT};

/// A search with one caller: the pass of a queue of one seat, the nodes made so far by number, each until it is
/// taken, the bounds of the branch at hand, and the best plan so far.
#[derive(Drop)]
pub(crate) struct Search<C, N, P> {
    pub(crate) pass: C,
    pub(crate) store: Store<N>,
    pub(crate) keys: Vec<u32>,
    pub(crate) best: Option<Found<P>>,
}

impl<C: OnePass, N: Drop, P: Drop> Search<C, N, P> {
    ghost use Rattle.bb_pool.specs.Costs.{limit_of};
    ghost use Rattle.bb_pool.specs.OneSeat.{held};
    ghost use Rattle.bb_pool.specs.Underway.{state_of, cost_so_far, IsPut, IsNotPut, IsStored, IsTaken, IsSpent};

    /// The cost of the best plan so far.
    pub(crate) fn best_cost(&self) -> Option<u32>
        ensures { result ≡ cost_so_far self.now.best }
    {
        match &self.best {
            Some(found) => Some(found.cost),
            None => None,
        }
    }

    /// What the keys of nodes that are worth a look are below.
    fn limit(&self) -> u32
        ensures limit { result ≡ limit_of (cost_so_far self.now.best) }
        ensures within { result ≤ key_limit }
    {
        match &self.best {
            Some(found) => found.cost,
            None => KEY_LIMIT,
        }
    }

    /// Gives the node with this bound the next number, puts it into the store under it, and inserts an entry for it.
    #[inline(always)]
    pub(crate) fn put(&mut self, key: u32, node: N) -> Result<(), Stop>
        requires key { key < key_limit }
        requires few { length self.old.store < id_limit }
        requires calls { length (C.seat self.old.pass).known.calls < call_limit - 1 }
        requires number { (C.seat self.old.pass).known.number ≡ 1 }
        ensures put { IfOk result (λ _. IsPut (state_of C.seat self.old) key node (state_of C.seat self.new)) }
        ensures keys { self.new.keys ≡ self.old.keys }
        ensures refused { IfErr result (IsNotPut (state_of C.seat self.old)) }
    {
        let id = self.store.len() as u32;
        self.store.push(node)?;
        match self.pass.add(Entry { key, id }) {
            Inserted::Done(_) => {
                one_seat_steps();
                Ok(())
            }
            Inserted::Full(receipt) => {
                one_seat_has_made_all();
                full_with_one_seat();
                Err(Stop::Full {
                    place: receipt.place,
                })
            }
        }
    }

    /// Removes the least entry and takes its node out of the store, where its key is below the best cost, and
    /// gives `None` where there is no such entry.
    #[inline]
    pub(crate) fn take(&mut self) -> Option<Child<N>>
        requires stored { All (IsStored self.old.store) (held (C.seat self.old.pass)) }
        requires calls { length (C.seat self.old.pass).known.calls < call_limit - 1 }
        requires number { (C.seat self.old.pass).known.number ≡ 1 }
        ensures { let before = state_of C.seat self.old in let now = state_of C.seat self.new in
            MatchOption result (IsSpent before now) (λ child. IsTaken before child now) }
    {
        one_seat_steps();
        let limit = self.limit();
        match self.pass.take_below(limit) {
            Below::Got(e, _) => {
                let node = self.store.take(e.id as usize);
                self.pass.has_taken();
                Some(Child { key: e.key, node })
            }
            Below::Empty(_) => None,
            Below::Above(_) => None,
        }
    }
}
