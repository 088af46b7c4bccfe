//! The pass of a plain queue, which holds the entries.
ghost use Rattle.std.specs.Arc.{arc_value};
ghost use Rattle.std.specs.Prelude.{◌≡◌, ℕ, ◌+◌, ◌-◌, ◌<◌, ◌≤◌, ◌↔◌, ◌==◌, List, [], length, IfOk, IfErr, IsSomeAnd};
ghost use Rattle.pq_words.specs.Limits.{key_limit};
ghost use Rattle.pq_words.specs.declared.entries.Entry.{Entry};
ghost use Rattle.pq_model.specs.declared.marks.Act.TheVariants.{Insert, Remove, RemoveBelow};
ghost use Rattle.pq_model.specs.declared.marks.Reply.TheVariants.{Full, Empty, Above};
ghost use Rattle.pq_model.specs.declared.marks.Mark.{Mark};
ghost use Rattle.pq_model.specs.Multiset.{least};
ghost use Rattle.pq_model.specs.History.{IsStep, after, left};
ghost use Rattle.pq_model.specs.Passes.{Knows, Witnesses, fresh, with_front};
ghost use Rattle.pq_api.specs.Limits.{call_limit};
ghost use Rattle.pq_api.specs.Answers.{IsInserted, IsRemoved, IsRemovedBelow, IsBelow};
ghost use Rattle.pq_api.specs.Answers.{insert_reply, remove_reply, below_reply};
ghost use Rattle.pq_api.specs.Closing.{IsClosed};
ghost use Rattle.pq_api.specs.Plain.{Plain, IsKept, marks_of, held};

use super::steps::{PlainSeat, PlainTable, draw, load};
use crate::{Below, Closed, Inserted, Removed};
use pq_io::NoMemory;
use pq_model::{Act, EntryHeap, Reply};
use pq_words::Entry;
use std::alloc::Global;
use std::marker::Model;
use std::sync::Arc;

/// The one pass of a plain queue, which holds the entries. Its number is 1.
///
/// Contracts see its capacity, its table and what it knows. As it is alone, its calls are the whole history, and the
/// entries that it holds are those that these calls leave.
#[derive(Drop)]
pub struct PlainPass {
    held: EntryHeap,
    capacity: u32,
    // How many calls were made.
    made: u32,
    table: Arc<PlainTable>,
    seat: PlainSeat,
}

impl Model for PlainPass {
    ghost use Rattle.std.specs.Prelude.{◌≡◌, ◌≤◌, length};
    ghost use Rattle.std.specs.Arc.{arc_value};
    ghost use Rattle.pq_model.specs.History.{left};
    ghost use Rattle.pq_api.specs.Plain.{Plain, IsKept, marks_of};

    ghost Value = { Plain };

    ghost view = { λ p. record { capacity = p.capacity; table = p.seat.table_id; known = p.seat.me.0 } };

    ghost invariant = { λ p. IsKept p.capacity p.seat.me.0 × (p.held.entries ≡ left (marks_of p.seat.me.0)) ×
        (p.capacity ≤ p.held.room) × (p.made ≡ length p.seat.me.0.calls) ×
        (p.seat.table_id ≡ (arc_value p.table).shared.table_id) × (p.seat.table_id.words ≡ 1) };
}

impl PlainPass {
    pub(crate) fn new(
        alloc: Global,
        capacity: u32,
        table: Arc<PlainTable>,
        seat: PlainSeat,
    ) -> Result<PlainPass, NoMemory>
        requires own { (seat.table_id ≡ (arc_value table).shared.table_id) × (seat.table_id.words ≡ 1) }
        requires new { seat.me.0 ≡ fresh 1 }
        ensures is { IfOk result
            (λ p. p ≡ record { capacity = capacity; table = seat.table_id; known = fresh 1 }) }
    {
        let held = EntryHeap::with_room(alloc, capacity as usize)?;
        Ok(PlainPass {
            held,
            capacity,
            made: 0,
            table,
            seat,
        })
    }

    /// How many entries are held. O(1).
    pub fn len(&self) -> usize
        ensures { result ≡ length (held self.now) }
    {
        self.held.len()
    }

    /// Whether no entry is held. O(1).
    pub fn is_empty(&self) -> bool
        ensures { result ≡ (length (held self.now) == 0) }
    {
        self.held.is_empty()
    }

    /// Adds an entry, as `insert` of a shared queue does, and returns always. `Full` comes exactly where as
    /// many entries are held as the capacity is.
    ///
    /// Takes O(log n) where n entries are held, and no memory.
    #[inline]
    pub fn add(&mut self, e: Entry) -> Inserted
        requires { length self.old.known.calls < call_limit - 1 }
        ensures capacity { self.new.capacity ≡ self.old.capacity }
        ensures table { self.new.table ≡ self.old.table }
        ensures call { IsInserted self.old.known e result self.new.known }
        ensures knows { Knows 1 self.old.capacity self.new.known }
        ensures step { IsStep 1 self.old.capacity (held self.old) (Insert e) (insert_reply result) }
        ensures full { (insert_reply result ≡ Full) ↔ (length (held self.old) ≡ self.old.capacity) }
        ensures holds { held self.new ≡ after (held self.old) (Insert e) (insert_reply result) }
    {
        if self.held.len() < self.capacity as usize {
            let Ok(()) = self.held.add(e) else {
                unreachable!()
            };
            let receipt = draw(
                &self.table,
                &mut self.seat,
                &mut self.made,
                self.capacity,
                Act::Insert(e),
                Reply::Done,
            );
            Inserted::Done(receipt)
        } else {
            let receipt = draw(
                &self.table,
                &mut self.seat,
                &mut self.made,
                self.capacity,
                Act::Insert(e),
                Reply::Full,
            );
            Inserted::Full(receipt)
        }
    }

    /// Takes the least entry, by key and then by id, as `remove` of a shared queue does, and returns always.
    /// `Empty` comes exactly where none is held. Takes O(log n) where n entries are held, and no memory.
    #[inline]
    pub fn take(&mut self) -> Removed
        requires { length self.old.known.calls < call_limit - 1 }
        ensures capacity { self.new.capacity ≡ self.old.capacity }
        ensures table { self.new.table ≡ self.old.table }
        ensures call { IsRemoved self.old.known result self.new.known }
        ensures knows { Knows 1 self.old.capacity self.new.known }
        ensures step { IsStep 1 self.old.capacity (held self.old) Remove (remove_reply result) }
        ensures empty { (remove_reply result ≡ Empty) ↔ (held self.old ≡ []) }
        ensures holds { held self.new ≡ after (held self.old) Remove (remove_reply result) }
    {
        match self.held.take() {
            Some(e) => {
                let receipt = draw(
                    &self.table,
                    &mut self.seat,
                    &mut self.made,
                    self.capacity,
                    Act::Remove,
                    Reply::Got(e),
                );
                Removed::Got(e, receipt)
            }
            None => {
                let receipt = draw(
                    &self.table,
                    &mut self.seat,
                    &mut self.made,
                    self.capacity,
                    Act::Remove,
                    Reply::Empty,
                );
                Removed::Empty(receipt)
            }
        }
    }

    /// Takes the least entry, by key and then by id, where its key is below the limit, as `remove_below` of a
    /// shared queue does, and returns always. `Empty` comes exactly where none is held, and `Above` exactly
    /// where some are and the least key is the limit or above it. Takes O(log n) where n entries are held, and
    /// no memory; an answer `Above` or `Empty` takes O(1).
    #[inline]
    pub fn take_below(&mut self, limit: u32) -> Below
        requires few { length self.old.known.calls < call_limit - 1 }
        requires limit { limit ≤ key_limit }
        ensures capacity { self.new.capacity ≡ self.old.capacity }
        ensures table { self.new.table ≡ self.old.table }
        ensures call { IsRemovedBelow self.old.known limit result self.new.known }
        ensures key { IsBelow limit result }
        ensures knows { Knows 1 self.old.capacity self.new.known }
        ensures step { IsStep 1 self.old.capacity (held self.old) (RemoveBelow limit) (below_reply result) }
        ensures empty { (below_reply result ≡ Empty) ↔ (held self.old ≡ []) }
        ensures above { (below_reply result ≡ Above) ↔
            IsSomeAnd (least (held self.old)) (λ (e : Entry). limit ≤ e.key) }
        ensures holds { held self.new ≡ after (held self.old) (RemoveBelow limit) (below_reply result) }
    {
        let act = Act::RemoveBelow(limit);
        match self.held.least() {
            Some(e) if e.key < limit => {
                self.held.take();
                let receipt = draw(
                    &self.table,
                    &mut self.seat,
                    &mut self.made,
                    self.capacity,
                    act,
                    Reply::Got(e),
                );
                Below::Got(e, receipt)
            }
            Some(_) => {
                let receipt = draw(
                    &self.table,
                    &mut self.seat,
                    &mut self.made,
                    self.capacity,
                    act,
                    Reply::Above,
                );
                Below::Above(receipt)
            }
            None => {
                let receipt = draw(
                    &self.table,
                    &mut self.seat,
                    &mut self.made,
                    self.capacity,
                    act,
                    Reply::Empty,
                );
                Below::Empty(receipt)
            }
        }
    }

    pub(crate) fn see(&mut self) -> u32
        ensures capacity { self.new.capacity ≡ self.old.capacity }
        ensures table { self.new.table ≡ self.old.table }
        ensures front { (self.old.known.front ≤ result) × (self.new.known ≡ with_front self.old.known result) }
        ensures knows { (history : List Mark) ×
            Witnesses 1 self.old.capacity self.new.known history × (length history ≡ result) }
    {
        load(&self.table, &mut self.seat);
        self.made
    }

    // The length of the history and the entries left, or the pass, where there is no memory for their list.
    pub(crate) fn finish(self, alloc: Global) -> Result<Closed, PlainPass>
        ensures closed { IfOk result (IsClosed 1 self.capacity self.known) }
        ensures same { IfErr result (λ p. p ≡ self) }
    {
        let Ok(mut left) = Vec::with_capacity(alloc, self.held.len()) else {
            return Err(self);
        };
        let PlainPass {
            held,
            capacity: _,
            made,
            table: _,
            seat: _,
        } = self;
        held.put_into(&mut left);
        Ok(Closed { left, length: made })
    }

    // Each plain pass has the number 1, so two of them are never apart.
    pub(crate) fn shares_number(&self, other: &PlainPass)
        ensures { self.now.known.number ≡ other.now.known.number }
    {
        let _mine = &self.capacity;
        let _theirs = &other.capacity;
    }
}
