//! The store and its seats.
ghost use Rattle.std.specs.Prelude.{◌≡◌, ℕ, suc, ◌+◌, ◌-◌, ◌<◌, ◌≤◌, [], IfOk, IfSome, IfNone, replicate};
ghost use mathlib.Core.Option.{none};
ghost use Rattle.atomic_table.specs.Table.{step};
ghost use Rattle.atomic_table.specs.Seated.{TableId};
ghost use Rattle.pq_model.specs.Limits.{max_seats};
ghost use Rattle.bb_problem.specs.Limits.{max_children};
ghost use Rattle.bb_shared.specs.Limits.{max_nodes};
ghost use Rattle.bb_shared.specs.Stores.{nodes_of, StoreSeated, new_store_seat, numbered};
ghost use Rattle.bb_shared.specs.Stores.{with_put, with_take, stores_joined};
ghost use Rattle.bb_shared.specs.Stores.{HasNoOver, IsDrawn, IsFree, IsMissed, KnowsStore};
ghost use Rattle.bb_shared.specs.StoreRules.{giver, drew};

use super::drawn::Drawn;
use super::rule::{
    BeginPut, DONE, Deal, DrawNumbers, EndPut, EndTake, FULL, Learn, Limit, NONE, PUTTING,
    StoreHand, StoreTable, TAKING, Together, TryTake,
};
use crossbeam_utils::Backoff;
use pq_io::NoMemory;
use std::alloc::{AllocError, Global};
use std::marker::{Brand, Model};
use std::sync::Wait;

/// Nodes by number, moved in and out and never cloned. Callers that each hold a seat share it.
///
/// A number is drawn by one seat, which alone may put a node under it. Whoever learns the number may take the node,
/// and of several who try only one gets it.
///
/// Contracts see the table, by which a seat is known to be one of the store's.
#[derive(Drop)]
pub struct Store<N> {
    table: StoreTable<N>,
}

impl<N> Model for Store<N> {
    ghost use Rattle.std.specs.Prelude.{◌≡◌, suc};
    ghost use Rattle.atomic_table.specs.Seated.{TableId};

    ghost Value = { TableId };

    ghost view = { λ s. s.table.shared.table_id };

    ghost invariant = { λ s. s.table.shared.table_id.words ≡ suc s.table.shared.table_id.slots };
}

/// What a caller holds, to draw, put and take with.
///
/// Contracts see the table of its store, what the seat keeps, which is its draws, its puts and its takes, and its
/// attempts to take a node.
#[derive(Drop)]
pub struct StoreSeat<N> {
    seat: StoreHand<N>,
}

impl<N> Model for StoreSeat<N> {
    ghost use Rattle.std.specs.Prelude.{◌≡◌, ◌<◌, [], None};
    ghost use Rattle.bb_shared.specs.Stores.{StoreSeated};

    ghost Value = { StoreSeated N };

    ghost view = { λ s. record {
      store = s.seat.table_id;
      kept = s.seat.me.0.kept;
      attempts = s.seat.me.0.attempts;
    } };

    ghost invariant = { λ s. (s.seat.me.1 ≡ []) × (s.seat.me.0.putting ≡ None) × (0 < s.seat.me.0.kept.parts) };
}

impl<N: Drop> Store<N> {
    /// A store of so many numbers, none of which is drawn, and all its seats at once. Takes all memory that the store
    /// needs: eight bytes and a slot for each number, and as much again until it returns, in time linear in `nodes`.
    ///
    /// A slot holds the node itself, not a box of it, and is written when the store is made and when it is dropped. So
    /// a node should be small, and own what is large. A store of `MAX_NODES` numbers, with nodes of 40 bytes and so
    /// slots of 48, takes some 60 megabytes, and opens and is dropped in about a tenth of a second of processor time,
    /// most of it the system's for the pages.
    pub fn open(
        alloc: Global,
        nodes: u32,
        seats: u32,
    ) -> Result<(Store<N>, Vec<StoreSeat<N>>), NoMemory>
        requires nodes { (1 ≤ nodes) × (nodes ≤ max_nodes) }
        requires seats { (1 ≤ seats) × (seats ≤ max_seats) }
        ensures nodes { IfOk result (λ r. nodes_of r.0 ≡ nodes) }
        ensures seats { IfOk result (λ r. r.1.items ≡ replicate seats (new_store_seat r.0 seats)) }
    {
        let (store, dealer) = Store::begin(alloc, nodes, seats)?;
        let all = store.deal_all(alloc, dealer, seats)?;
        Ok((store, all))
    }

    // A store, and a seat that has all parts.
    fn begin(alloc: Global, nodes: u32, seats: u32) -> Result<(Store<N>, StoreHand<N>), AllocError>
        requires nodes { nodes ≤ max_nodes }
        requires seats { seats ≤ max_seats }
        ensures nodes { IfOk result (λ r. nodes_of r.0 ≡ nodes) }
        ensures dealer { IfOk result (λ r. (r.1.table_id ≡ r.0) × (r.1.me ≡ (giver seats seats, []))) }
    {
        let words = vec![in alloc; 0; nodes as usize + 1]?;
        let (table, dealer) = StoreTable::vacant(alloc, words.as_slice(), nodes as usize, &seats)?;
        Ok((Store { table }, dealer))
    }

    // Gives all parts of the dealer to new seats.
    fn deal_all(
        &self,
        alloc: Global,
        mut dealer: StoreHand<N>,
        seats: u32,
    ) -> Result<Vec<StoreSeat<N>>, NoMemory>
        requires own { dealer.table_id ≡ self.now }
        requires parts { dealer.me ≡ (giver seats seats, []) }
        ensures seats { IfOk result (λ all. all.items ≡ replicate seats (new_store_seat self.now seats)) }
    {
        let mut all = Vec::with_capacity(alloc, seats as usize)?;
        for _ in 0..seats {
            all.push(self.deal(&mut dealer))?;
        }
        Ok(all)
    }

    // Gives one part of the dealer to a new seat.
    fn deal(&self, dealer: &mut StoreHand<N>) -> StoreSeat<N>
        requires own { dealer.old.table_id ≡ self.now }
        requires parts { (seats parts : ℕ) × (dealer.old.me ≡ (giver seats (suc parts), [])) }
        ensures own { dealer.new.table_id ≡ dealer.old.table_id }
        ensures dealt { (seats parts : ℕ) → dealer.old.me ≡ (giver seats (suc parts), [])
            → (dealer.new.me ≡ (giver seats parts, [])) × (result ≡ new_store_seat self.now seats) }
    {
        let seat = self.table.shared.split_seat::<Deal>(dealer);
        StoreSeat { seat }
    }

    /// Adds `count` to the numbers that were drawn, by one step. `First` gives the first of these numbers, which are
    /// the seat's alone. `Over` comes exactly where with them more than `limit` would have been drawn; a seat that was
    /// answered so draws no more. Takes no memory.
    pub fn draw(&self, seat: &mut StoreSeat<N>, count: u32, limit: u32) -> Drawn
        requires own { seat.old.store ≡ self.now }
        requires count { (1 ≤ count) × (count ≤ max_children) }
        requires under { HasNoOver seat.old.kept }
        ensures own { seat.new.store ≡ seat.old.store }
        ensures drawn { IsDrawn seat.old.kept count limit result seat.new.kept }
        ensures knows { KnowsStore (nodes_of self.now) seat.new.kept }
    {
        let first = self.draw_as::<Brand>(&mut seat.seat, count, limit);
        let asked = first + count as u64;
        if asked > limit as u64 {
            return Drawn::Over { asked };
        }
        Drawn::First(first as u32)
    }

    fn draw_as<L: Limit>(&self, seat: &mut StoreHand<N>, count: u32, limit: u32) -> u64
        requires own { seat.old.table_id ≡ self.now }
        requires picked { L.limit ≡ limit }
        requires count { (1 ≤ count) × (count ≤ max_children) }
        requires some { 0 < seat.old.me.0.kept.parts }
        requires under { HasNoOver seat.old.me.0.kept }
        ensures own { seat.new.table_id ≡ seat.old.table_id }
        ensures drawn { drew (step (nodes_of self.now) 0 count 0 none) seat.old.me result seat.new.me limit }
    {
        self.table
            .shared
            .fetch_add::<DrawNumbers<L>>(seat, 0, count as u64)
    }

    /// Puts the node under the number, from where one caller takes it. Takes no memory, and waits for nobody.
    pub fn put(&self, seat: &mut StoreSeat<N>, number: u32, node: N)
        requires own { seat.old.store ≡ self.now }
        requires within { number < nodes_of self.now }
        requires free { IsFree seat.old.kept number }
        ensures own { seat.new.store ≡ seat.old.store }
        ensures put { seat.new.kept ≡ with_put seat.old.kept (numbered number node) }
        ensures knows { KnowsStore (nodes_of self.now) seat.new.kept }
    {
        let slot = number as usize;
        let words = &self.table.shared;
        words.compare_exchange::<BeginPut>(&mut seat.seat, slot + 1, NONE, PUTTING);
        match words.exchange(&mut seat.seat, slot, Some(node)) {
            None => {}
            Some(_) => unreachable!(),
        }
        words.store::<EndPut>(&mut seat.seat, slot + 1, FULL);
    }

    /// Takes the node of the number, and waits until it is there. At a number of `nodes` or above, and at one whose
    /// node was taken already, it tries for ever. Takes no memory.
    pub fn take<R: Wait>(&self, rt: &R, seat: &mut StoreSeat<N>, number: u32) -> N
        requires own { seat.old.store ≡ self.now }
        ensures own { seat.new.store ≡ seat.old.store }
        ensures taken { seat.new.kept ≡ with_take seat.old.kept (numbered number result) }
        ensures knows { KnowsStore (nodes_of self.now) seat.new.kept }
    {
        let backoff = Backoff::new();
        for _ in rt.forever() {
            if let Some(node) = self.try_take(seat, number) {
                return node;
            }
            backoff.snooze();
        }
        unreachable!()
    }

    /// The same without waiting: `None` where no node stands at the number. The number is then not below `nodes`, or
    /// its word was read and was not full.
    pub(crate) fn try_take(&self, seat: &mut StoreSeat<N>, number: u32) -> Option<N>
        requires own { seat.old.store ≡ self.now }
        ensures own { seat.new.store ≡ seat.old.store }
        ensures taken { IfSome result (λ node. seat.new.kept ≡ with_take seat.old.kept (numbered number node)) }
        ensures knows { IfSome result (λ node. KnowsStore (nodes_of self.now) seat.new.kept) }
        ensures same { IfNone result (seat.new.kept ≡ seat.old.kept) }
        ensures missed { IfNone result (IsMissed (nodes_of self.now) seat.old number seat.new) }
    {
        let slot = number as usize;
        if slot >= self.table.slot_count() {
            return None;
        }
        let words = &self.table.shared;
        if words.compare_exchange::<TryTake>(&mut seat.seat, slot + 1, FULL, TAKING) != FULL {
            return None;
        }
        let node = words.exchange(&mut seat.seat, slot, None);
        words.store::<EndTake>(&mut seat.seat, slot + 1, DONE);
        node
    }

    /// Adds the draws, puts and takes of `other` to `into`. Takes no memory, and waits for nobody.
    pub fn join(&self, into: &mut StoreSeat<N>, other: StoreSeat<N>)
        requires own { (into.old.store ≡ self.now) × (other.store ≡ self.now) }
        ensures own { into.new.store ≡ into.old.store }
        ensures joined { into.new.kept ≡ stores_joined into.old.kept other.kept }
        ensures knows { KnowsStore (nodes_of self.now) into.new.kept }
    {
        let StoreSeat { seat } = other;
        let words = &self.table.shared;
        words.join_seat::<Together>(&mut into.seat, seat);
        words.load::<Learn>(&mut into.seat, 0);
    }
}
