//! The plain queue as a shared queue of one seat.
ghost use Rattle.std.specs.Prelude.{◌≡◌, ◌≤◌};
ghost use Rattle.std.specs.Arc.{arc_value};
ghost use Rattle.pq_model.specs.Limits.{max_capacity};
ghost use Rattle.std.proofs.Common.{rules};

use super::pass::PlainPass;
use super::steps::PlainTable;
use crate::{
    Below, BoundedQueue, CloseRefusal, CloseWhy, Closed, Inserted, Open, Removed, SharedQueue,
};
use atomic_table::Table;
use pq_io::NoMemory;
use pq_model::MAX_CAPACITY;
use pq_words::Entry;
use std::alloc::Global;
use std::sync::{Arc, Wait};

/// A queue with one caller. Its one pass holds the entries, in a heap with room for the capacity reserved when
/// the queue is opened. Queue and pass share one table, by which a pass is known to be of its queue.
///
/// An insert and a removal take O(log n) where n entries are held, and no memory. A close takes O(n log n),
/// and memory for the list of what is left. As all passes have the number 1, no two of them can meet or be
/// joined.
#[derive(Drop)]
pub struct PlainQueue {
    capacity: u32,
    table: Arc<PlainTable>,
    pub ghost within: { (1 ≤ capacity) × (capacity ≤ max_capacity) },
}

impl SharedQueue for PlainQueue {
    type Pass = PlainPass;

    type Gate = Open;

    const CAPACITY: u32 = MAX_CAPACITY;

    const SEATS: u32 = 1;

    ghost CAPACITY = { max_capacity };

    ghost SEATS = { 1 };

    ghost capacity_of = { λ q. q.capacity };

    ghost seats_of = { λ q. 1 };

    ghost known = { λ p. p.known };

    ghost belongs = { λ q p. (p.capacity ≡ q.capacity) × (p.table ≡ (arc_value q.table).shared.table_id) };

    ghost limits = { Prim.search rules };

    ghost sized = { λ q. Prim.search rules };

    fn open(
        alloc: Global,
        capacity: u32,
        _seats: u32,
        _gate: Self::Gate,
    ) -> Result<(Self, Vec<Self::Pass>), NoMemory> {
        let (table, seat) = Table::of_words(alloc, &[0], &())?;
        let table = Arc::new(alloc, table)?;
        let pass = PlainPass::new(alloc, capacity, table.clone()?, seat)?;
        let mut passes = Vec::new(alloc);
        passes.push(pass)?;
        Ok((PlainQueue { capacity, table }, passes))
    }

    fn insert<R: Wait + Sync>(&self, _rt: &R, pass: &mut Self::Pass, e: Entry) -> Inserted {
        pass.add(e)
    }

    fn remove<R: Wait + Sync>(&self, _rt: &R, pass: &mut Self::Pass) -> Removed {
        pass.take()
    }

    fn look(&self, pass: &mut Self::Pass) -> u32 {
        pass.see()
    }

    fn meet(&self, a: &mut Self::Pass, b: &mut Self::Pass) {
        a.shares_number(b);
        unreachable!()
    }

    fn join(&self, into: &mut Self::Pass, other: Self::Pass) {
        into.shares_number(&other);
        unreachable!()
    }

    fn close(
        self,
        alloc: Global,
        pass: Self::Pass,
    ) -> Result<Closed, CloseRefusal<Self, Self::Pass>> {
        match pass.finish(alloc) {
            Ok(closed) => Ok(closed),
            Err(pass) => Err(CloseRefusal {
                queue: self,
                pass,
                why: CloseWhy::NoMemory,
            }),
        }
    }
}

impl BoundedQueue for PlainQueue {
    fn remove_below<R: Wait + Sync>(&self, _rt: &R, pass: &mut Self::Pass, limit: u32) -> Below {
        pass.take_below(limit)
    }
}
