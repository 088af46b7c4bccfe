//! The heap as a shared queue: its opening, what its passes learn of each other, and its end.
ghost use Rattle.std.specs.Prelude.{◌≡◌, ◌+◌, ◌<◌, ◌≤◌, ◌++◌, List, [], ◌∷◌, replicate, length, vec_capacity, IfOk};
ghost use Rattle.std.specs.Mem.Slots.{slots_len, slots_items, IsFull};
ghost use Rattle.pq_model.specs.Limits.{max_capacity};
ghost use Rattle.pq_model.specs.Multiset.{sorted_of};
ghost use Rattle.pq_seats.specs.Passes.{limits_of};
ghost use Rattle.pq_hunt.specs.declared.nodes.Node.{Node};
ghost use Rattle.pq_hunt.specs.Layout as layout;
ghost use Rattle.pq_hunt.specs.Nodes.{standing};
ghost use Rattle.pq_hunt.specs.Words.{Means};
ghost use Rattle.pq_hunt.specs.Tables.{IsHeapTable};
ghost use Rattle.pq_hunt.specs.Queues.{SayNodes};

use crate::insert::insert;
use crate::layout::word_count;
use crate::remove::{remove, remove_below};
use crate::{HuntPass, HuntRule, HuntTable};
use atomic_table::Closed as ClosedTable;
use pq_api::{
    Below, BoundedQueue, CloseRefusal, CloseWhy, Closed, Gate, Inserted, Point, Removed,
    SharedQueue,
};
use pq_io::NoMemory;
use pq_model::{MAX_CAPACITY, MAX_SEATS};
use pq_nodes::word_of;
use pq_seats::{SeatedQueue, Shared};
use pq_words::{Entry, HeapWord, Tag};
use std::alloc::Global;
use std::sync::Wait;

/// A heap that callers share, each by a pass of its own. It has a table of words, in which each node of the heap has a
/// word and a lock, and the size has both too. A call holds the lock of the size no longer
/// than until it has drawn its place, left its letters and let the last node go; no other call begins meanwhile.
///
/// The algorithm is that of "An Efficient Algorithm for Concurrent Priority Queue Heaps" by Hunt, Michael,
/// Parthasarathy and Scott (1996), with entries that fill the levels from the left.
///
/// The gate is called at the points `HeapBusy` and `HeapSift`.
#[derive(Drop)]
pub struct HuntHeap<G> {
    table: HuntTable,
    capacity: u32,
    gate: G,
    pub ghost heap: { IsHeapTable table },
    pub ghost sized: { capacity ≡ (limits_of table).capacity },
    pub ghost seated: { table.seats ≤ capacity },
}

// The words of a heap without entries.
fn blank_words(alloc: Global, capacity: u32) -> Result<Vec<u64>, NoMemory>
    requires { capacity ≤ max_capacity }
    ensures { IfOk result (λ v. v.items ≡ replicate (layout.word_count capacity) 0) }
{
    let mut words = Vec::new(alloc);
    words.resize(word_count(capacity), 0)?;
    Ok(words)
}

// Puts the entry of a node that has this word behind those of the list, where the node is Available.
fn keep(word: u64, left: &mut Vec<Entry>)
    requires packed { (v : Node) × Means v word }
    requires room { length left.old.items < vec_capacity left.old }
    ensures kept { (v : Node) → Means v word → left.new.items ≡ left.old.items ++ standing (v ∷ []) }
    ensures room { vec_capacity left.new ≡ vec_capacity left.old }
    ensures count { length left.new.items ≤ length left.old.items + 1 }
{
    let w = HeapWord::unpack(word);
    match w.tag {
        Tag::Available => left.push_reserved(w.entry),
        Tag::Empty | Tag::Busy => {}
    }
}

// Puts the entries of all Available nodes into the list, in rising order.
fn gather(closed: &ClosedTable<(), Global>, capacity: u32, left: &mut Vec<Entry>)
    requires few { capacity ≤ max_capacity }
    requires words { (slots_len closed.now.words ≡ layout.word_count capacity) × IsFull closed.now.words }
    requires says { (nodes : List Node) × SayNodes capacity (slots_items closed.now.words) nodes }
    requires new { left.old.items ≡ [] }
    requires room { capacity ≤ vec_capacity left.old }
    ensures { (nodes : List Node) → SayNodes capacity (slots_items closed.now.words) nodes →
        left.new.items ≡ sorted_of (standing nodes) }
{
    for i in 0..capacity {
        keep(closed.word(word_of(i + 1) as usize), left);
    }
    left.sort_unstable();
}

// These calls need no gate, so that they ask nothing of its type.
impl<G: Drop> HuntHeap<G> {
    ghost use Rattle.std.specs.Prelude.{◌≡◌, ℕ, ◌+◌, ◌<◌, ◌≤◌, List, length, max, IfOk, IfErr, MatchResult};
    ghost use Rattle.pq_model.specs.Limits.{max_seats, max_capacity};
    ghost use Rattle.pq_model.specs.declared.marks.Mark.{Mark};
    ghost use Rattle.pq_model.specs.Passes.{lanes, Witnesses, Knows, fresh, with_front, joined_with};
    ghost use Rattle.pq_api.specs.Answers.{EachAt, IsRefusal};
    ghost use Rattle.pq_api.specs.Closing.{IsClosed};
    ghost use Rattle.pq_seats.specs.Passes.{known};
    ghost use Rattle.pq_hunt.specs.Queues.{Rests};

    // Makes the words, and opens their table.
    fn make(
        alloc: Global,
        capacity: u32,
        seats: u32,
        gate: G,
    ) -> Result<(HuntHeap<G>, Vec<HuntPass>), NoMemory>
        requires capacity { (1 ≤ capacity) × (capacity ≤ max_capacity) }
        requires seats { (1 ≤ seats) × (seats ≤ max_seats) × (seats ≤ capacity) }
        ensures limits { IfOk result (λ r. (r.0.capacity ≡ capacity) × (r.0.table.seats ≡ seats)) }
        ensures count { IfOk result (λ r. length r.1.items ≡ seats) }
        ensures passes { IfOk result (λ r. EachAt (λ i p. Rests r.0.table p × (known p ≡ fresh (i + 1))) r.1.items) }
    {
        let words = blank_words(alloc, capacity)?;
        let (table, passes) = Shared::open(alloc, words, capacity, seats)?;
        let heap = HuntHeap {
            table,
            capacity,
            gate,
        };
        Ok((heap, passes))
    }

    // The length of the history, which becomes the pass's front.
    fn see(&self, pass: &mut HuntPass) -> u32
        requires own { Rests self.now.table pass.old }
        ensures own { Rests self.now.table pass.new }
        ensures front { ((known pass.old).front ≤ result) × (known pass.new ≡ with_front (known pass.old) result) }
        ensures knows { (history : List Mark) ×
            Witnesses self.now.table.seats self.now.capacity (known pass.new) history × (length history ≡ result) }
    {
        self.table.length(pass)
    }

    // Tells each pass what the other has seen.
    fn tell(&self, a: &mut HuntPass, b: &mut HuntPass)
        requires own { Rests self.now.table a.old × Rests self.now.table b.old }
        ensures own { Rests self.now.table a.new × Rests self.now.table b.new }
        ensures fronts { let front = max (known a.old).front (known b.old).front in
            (known a.new ≡ with_front (known a.old) front) × (known b.new ≡ with_front (known b.old) front) }
        ensures knows { Knows self.now.table.seats self.now.capacity (known a.new) ×
            Knows self.now.table.seats self.now.capacity (known b.new) }
    {
        self.table.meet(a, b);
    }

    // Takes the other pass into this one.
    fn take_in(&self, into: &mut HuntPass, other: HuntPass)
        requires own { Rests self.now.table into.old × Rests self.now.table other }
        ensures own { Rests self.now.table into.new }
        ensures joined { known into.new ≡ joined_with (known into.old) (known other) }
        ensures knows { Knows self.now.table.seats self.now.capacity (known into.new) }
    {
        self.table.join(into, other);
    }

    // Closes the table, and lists the entries of its nodes. The memory for the list is taken before, for as many
    // entries as the capacity is, as nobody knows how many are left while the table is open.
    fn finish(
        self,
        alloc: Global,
        pass: HuntPass,
    ) -> Result<Closed, CloseRefusal<HuntHeap<G>, HuntPass>>
        requires own { Rests self.table pass }
        ensures closed { IfOk result (IsClosed self.table.seats self.capacity (known pass)) }
        ensures out { let joined = length (lanes (known pass)) in
            MatchResult result (λ _. self.table.seats ≤ joined) (λ r. IsRefusal joined self.table.seats r.why) }
        ensures same { IfErr result (λ r. (r.queue ≡ self) × (r.pass ≡ pass)) }
    {
        let (joined, seats) = (pass.lanes, self.table.seats);
        if joined < seats {
            return Err(CloseRefusal {
                queue: self,
                pass,
                why: CloseWhy::PassesOut { joined, seats },
            });
        }
        let Ok(mut left) = Vec::with_capacity(alloc, self.capacity as usize) else {
            return Err(CloseRefusal {
                queue: self,
                pass,
                why: CloseWhy::NoMemory,
            });
        };
        let HuntHeap {
            table,
            capacity,
            gate: _,
        } = self;
        let closed = table.close(pass);
        let length = closed.word(0) as u32;
        gather(&closed, capacity, &mut left);
        closed.free();
        Ok(Closed { left, length })
    }
}

impl<G: Gate> SharedQueue for HuntHeap<G> {
    ghost use Rattle.pq_model.specs.Limits.{max_seats, max_capacity};
    ghost use Rattle.pq_seats.specs.Passes.{known};
    ghost use Rattle.pq_hunt.specs.Queues.{Rests};
    ghost use Rattle.std.proofs.Common.{rules};

    type Pass = HuntPass;

    type Gate = G;

    const CAPACITY: u32 = MAX_CAPACITY;

    const SEATS: u32 = MAX_SEATS;

    ghost CAPACITY = { max_capacity };

    ghost SEATS = { max_seats };

    ghost capacity_of = { λ q. q.capacity };

    ghost seats_of = { λ q. q.table.seats };

    ghost known = { λ p. known p };

    ghost belongs = { λ q p. Rests q.table p };

    ghost limits = { Prim.search rules };

    ghost sized = { λ q. Prim.search rules };

    /// Takes memory for 4 words for each entry of the capacity and 36 more, and as many again until it returns: the
    /// words are made in a list, which the table copies. O(capacity), and nearly all of it is the system's first touch
    /// of the pages of both: some 50 milliseconds at the greatest capacity, which takes 2 times 32 MiB.
    fn open(
        alloc: Global,
        capacity: u32,
        seats: u32,
        gate: Self::Gate,
    ) -> Result<(Self, Vec<Self::Pass>), NoMemory> {
        HuntHeap::make(alloc, capacity, seats, gate)
    }

    fn insert<R: Wait + Sync>(&self, rt: &R, pass: &mut Self::Pass, e: Entry) -> Inserted {
        let gate = &self.gate;
        insert(
            &self.table,
            self.capacity,
            || gate.at(rt, Point::HeapBusy),
            rt,
            pass,
            e,
        )
    }

    fn remove<R: Wait + Sync>(&self, rt: &R, pass: &mut Self::Pass) -> Removed {
        let gate = &self.gate;
        remove(&self.table, || gate.at(rt, Point::HeapSift), rt, pass)
    }

    fn look(&self, pass: &mut Self::Pass) -> u32 {
        self.see(pass)
    }

    fn meet(&self, a: &mut Self::Pass, b: &mut Self::Pass) {
        self.tell(a, b);
    }

    fn join(&self, into: &mut Self::Pass, other: Self::Pass) {
        self.take_in(into, other);
    }

    /// Takes memory for a list of as many entries as the capacity is, before the table is closed. Then takes
    /// O(n log n) where n entries are left, and O(1) for each node.
    fn close(
        self,
        alloc: Global,
        pass: Self::Pass,
    ) -> Result<Closed, CloseRefusal<Self, Self::Pass>> {
        self.finish(alloc, pass)
    }
}

impl<G: Gate> BoundedQueue for HuntHeap<G> {
    fn remove_below<R: Wait + Sync>(&self, rt: &R, pass: &mut Self::Pass, limit: u32) -> Below {
        let gate = &self.gate;
        remove_below(
            &self.table,
            || gate.at(rt, Point::HeapSift),
            rt,
            pass,
            limit,
        )
    }
}

impl<G: Gate> SeatedQueue for HuntHeap<G> {
    ghost use Rattle.std.proofs.Common.{rules};

    type Rule = HuntRule;

    ghost table_of = { λ q. q.table };

    ghost seat_of = { λ p. p };

    ghost sits = { λ q p own. own.0 };

    ghost keeps = { λ p. Prim.search rules };

    ghost opened = { λ q. Prim.search rules };

    fn table(&self) -> &Shared<HuntRule> {
        &self.table
    }

    fn seat(pass: &HuntPass) -> &HuntPass {
        pass
    }
}
