//! The interface that every shared queue has.
ghost use Rattle.std.specs.Prelude.{◌≡◌, ℕ, ◌+◌, ◌-◌, ◌<◌, ◌≤◌, List, length, max, IfOk, IfErr, MatchResult};
ghost use Rattle.pq_words.specs.Limits.{key_limit};
ghost use Rattle.pq_model.specs.Limits.{max_seats, max_capacity};
ghost use Rattle.pq_model.specs.declared.marks.Mark.{Mark};
ghost use Rattle.pq_model.specs.declared.passes.Known.{Known};
ghost use Rattle.pq_model.specs.Passes.{lanes, Witnesses, Knows, IsApart, fresh, with_front, joined_with};
ghost use Rattle.pq_api.specs.Limits.{call_limit};
ghost use Rattle.pq_api.specs.Answers.{EachAt, IsInserted, IsRemoved, IsRemovedBelow, IsBelow, IsRefusal};
ghost use Rattle.pq_api.specs.Closing.{IsClosed};

use crate::{Below, CloseRefusal, Closed, Gate, Inserted, Removed};
use pq_io::NoMemory;
use pq_words::Entry;
use std::alloc::Global;
use std::sync::Wait;

/// A bounded priority queue that callers share. Each caller holds a pass.
///
/// All calls of a queue stand in one history, in the order in which they took effect, each at its place from
/// 0 on. The history is legal: each reply is what one sorted list of entries, stepped by the calls in that
/// order, gives. No caller sees the history whole before all passes are joined. A pass keeps its own calls,
/// and after each call that it was lent to, it knows that there is a legal history that holds these calls at
/// their places, each once.
///
/// A pass also keeps a front: all that it has seen of the history lies below it, and each later call of the
/// pass has its place at the front or above. Callers that never met have no order between them.
///
/// What a call promises, it promises if it returns; `look`, `meet`, `join` and `close` wait for nobody, and
/// always return. `open` takes all memory that the queue needs, and no other call but `close` takes any.
pub trait SharedQueue: Sync + Drop {
    /// What a caller holds, to make calls with.
    type Pass: Send + Drop;

    /// What is called at the points of a call.
    type Gate: Gate;

    /// The greatest capacity, from `SEATS` to `MAX_CAPACITY`.
    const CAPACITY: u32;

    /// The greatest number of seats, from 1 to `MAX_SEATS`.
    const SEATS: u32;

    ghost CAPACITY: { ℕ };

    ghost SEATS: { ℕ };

    /// How many entries the queue takes.
    ghost capacity_of: { Self → ℕ };

    /// How many passes the queue was opened with.
    ghost seats_of: { Self → ℕ };

    /// What a pass means.
    ghost known: { Self.Pass → Known };

    /// The pass is one of this queue.
    ghost belongs: { Self → Self.Pass → Type 0 };

    /// Opens a queue, and gives all its passes at once. They are numbered from 1 to `seats`, have made no
    /// call and have seen nothing: the history is empty. Refused for want of memory, nothing is left.
    /// Takes all memory that the queue ever needs, but for what `close` gives back.
    fn open(
        alloc: Global,
        capacity: u32,
        seats: u32,
        gate: Self::Gate,
    ) -> Result<(Self, Vec<Self::Pass>), NoMemory>
        requires capacity { (1 ≤ capacity) × (capacity ≤ CAPACITY) }
        requires seats { (1 ≤ seats) × (seats ≤ SEATS) × (seats ≤ capacity) }
        ensures limits { IfOk result (λ r. (capacity_of r.0 ≡ capacity) × (seats_of r.0 ≡ seats)) }
        ensures count { IfOk result (λ r. length r.1.items ≡ seats) }
        ensures passes { IfOk result (λ r. EachAt (λ k p. belongs r.0 p × (known p ≡ fresh (k + 1))) r.1.items) };

    /// Adds an entry. `Done` comes only where fewer entries than the capacity were held at the call's place,
    /// and `Full` only where fewer places were free than there are seats. So with one seat `Full` comes
    /// exactly where as many were held as the capacity is, and never on an empty queue.
    fn insert<R: Wait + Sync>(&self, rt: &R, pass: &mut Self::Pass, e: Entry) -> Inserted
        requires own { belongs self.now pass.old }
        requires few { length (known pass.old).calls < call_limit - 1 }
        ensures own { belongs self.now pass.new }
        ensures call { IsInserted (known pass.old) e result (known pass.new) }
        ensures knows { Knows (seats_of self.now) (capacity_of self.now) (known pass.new) };

    /// Takes the least entry, by key and then by id. `Empty` comes exactly where none was held at the call's
    /// place.
    fn remove<R: Wait + Sync>(&self, rt: &R, pass: &mut Self::Pass) -> Removed
        requires own { belongs self.now pass.old }
        requires few { length (known pass.old).calls < call_limit - 1 }
        ensures own { belongs self.now pass.new }
        ensures call { IsRemoved (known pass.old) result (known pass.new) }
        ensures knows { Knows (seats_of self.now) (capacity_of self.now) (known pass.new) };

    /// The length of the history at one step of this call, which becomes the pass's front. No call is added
    /// to the history.
    fn look(&self, pass: &mut Self::Pass) -> u32
        requires own { belongs self.now pass.old }
        ensures own { belongs self.now pass.new }
        ensures front { ((known pass.old).front ≤ result) × (known pass.new ≡ with_front (known pass.old) result) }
        ensures knows { (history : List Mark) ×
            Witnesses (seats_of self.now) (capacity_of self.now) (known pass.new) history ×
            (length history ≡ result) };

    /// Tells each pass what the other has seen: both fronts become the greater of the two.
    fn meet(&self, a: &mut Self::Pass, b: &mut Self::Pass)
        requires own { belongs self.now a.old × belongs self.now b.old }
        requires apart { IsApart (known a.old) (known b.old) }
        ensures own { belongs self.now a.new × belongs self.now b.new }
        ensures fronts { let front = max (known a.old).front (known b.old).front in
            (known a.new ≡ with_front (known a.old) front) × (known b.new ≡ with_front (known b.old) front) }
        ensures knows { Knows (seats_of self.now) (capacity_of self.now) (known a.new) ×
            Knows (seats_of self.now) (capacity_of self.now) (known b.new) };

    /// Takes the other pass, with its number, its calls, what it has seen and all passes joined into it, into
    /// this one. The other is gone.
    fn join(&self, into: &mut Self::Pass, other: Self::Pass)
        requires own { belongs self.now into.old × belongs self.now other }
        requires apart { IsApart (known into.old) (known other) }
        ensures own { belongs self.now into.new }
        ensures joined { known into.new ≡ joined_with (known into.old) (known other) }
        ensures knows { Knows (seats_of self.now) (capacity_of self.now) (known into.new) };

    /// Ends the queue, once all its passes are joined into the given one. The calls of all passes, put by
    /// place, are then the whole history: the places are 0 to `length - 1`, each once, and the history is
    /// legal. The entries that it leaves come back in rising order.
    ///
    /// `PassesOut` comes exactly where fewer passes are joined, the given one counted, than the queue has
    /// seats, and tells both numbers; no memory is taken before that. Where there is no memory for the list of
    /// what is left, `NoMemory` comes. Both hand queue and pass back unchanged.
    fn close(
        self,
        alloc: Global,
        pass: Self::Pass,
    ) -> Result<Closed, CloseRefusal<Self, Self::Pass>>
        requires own { belongs self pass }
        ensures closed { IfOk result (IsClosed (seats_of self) (capacity_of self) (known pass)) }
        ensures out { let joined = length (lanes (known pass)) in
            MatchResult result (λ _. seats_of self ≤ joined) (λ r. IsRefusal joined (seats_of self) r.why) }
        ensures same { IfErr result (λ r. (r.queue ≡ self) × (r.pass ≡ pass)) };

    /// The limits of every kind of queue.
    ghost limits: { (1 ≤ SEATS) × (SEATS ≤ max_seats) × (SEATS ≤ CAPACITY) × (CAPACITY ≤ max_capacity) };

    /// Each queue keeps the limits of its kind.
    ghost sized: { (q : Self) →
        (1 ≤ seats_of q) × (seats_of q ≤ SEATS) × (seats_of q ≤ capacity_of q) × (capacity_of q ≤ CAPACITY) };
}

/// A shared queue that also takes the least entry only where its key is below a limit.
pub trait BoundedQueue: SharedQueue {
    /// Takes the least entry, by key and then by id, where its key is below the limit, which is 0 to
    /// `KEY_LIMIT`. `Empty` comes exactly where none was held at the call's place, and `Above` exactly where
    /// some were held and the least key was the limit or above it.
    fn remove_below<R: Wait + Sync>(&self, rt: &R, pass: &mut Self::Pass, limit: u32) -> Below
        requires own { Self.belongs self.now pass.old }
        requires few { length (Self.known pass.old).calls < call_limit - 1 }
        requires limit { limit ≤ key_limit }
        ensures own { Self.belongs self.now pass.new }
        ensures call { IsRemovedBelow (Self.known pass.old) limit result (Self.known pass.new) }
        ensures key { IsBelow limit result }
        ensures knows { Knows (Self.seats_of self.now) (Self.capacity_of self.now) (Self.known pass.new) };
}
