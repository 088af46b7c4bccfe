//! What a shared queue on this base shows of its words: the table that they stand in, and the rule of that table.
ghost use Rattle.std.specs.Prelude.{◌≡◌};

use crate::{SeatPass, SeatRule, Shared};
use pq_api::SharedQueue;

/// A shared queue whose calls are steps on one table of words, each made with the seat of a pass. It names the rule
/// that holds between any two steps. So the calls that a pass keeps are those of its seat's view, and what the history
/// leaves is what the rule says of the words.
///
/// Both methods hand out what is there. A step on the table needs a seat of it, and keeps its rule.
pub trait SeatedQueue: SharedQueue {
    ghost use Rattle.pq_seats.specs.declared.shared.Shared.{Shared};
    ghost use Rattle.pq_seats.specs.declared.shared.SeatPass.{SeatPass};
    ghost use Rattle.pq_seats.specs.Passes.{limits_of, Belongs};
    ghost use Rattle.pq_seats.specs.Passes as passes;

    /// The rule of its table.
    type Rule: SeatRule;

    /// The queue's table.
    ghost table_of: { Self → Shared Self.Rule Self.Rule.Own };

    /// The seat of a pass.
    ghost seat_of: { Self.Pass → SeatPass Self.Rule Self.Rule.Own };

    /// The queue's table.
    fn table(&self) -> &Shared<Self::Rule>
        ensures { result.now ≡ table_of self.now };

    /// The seat of a pass.
    fn seat(pass: &Self::Pass) -> &SeatPass<Self::Rule>
        ensures { result.now ≡ seat_of pass.now };

    /// A pass of the queue is a pass of its table.
    ghost sits: { (q : Self) (p : Self.Pass) → Self.belongs q p → Belongs (table_of q) (seat_of p) };

    /// What a pass means is what its seat's view says.
    ghost keeps: { (p : Self.Pass) → Self.known p ≡ passes.known (seat_of p) };

    /// The table was opened for as many entries and seats as the queue has.
    ghost opened: { (q : Self) → (Self.capacity_of q ≡ (limits_of (table_of q)).capacity)
        × (Self.seats_of q ≡ (limits_of (table_of q)).seats) };
}
