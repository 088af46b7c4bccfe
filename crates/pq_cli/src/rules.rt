//! Which rule the words of the program's heap stand under.
ghost use Rattle.std.specs.Prelude.{◌≡◌, ℕ, List};
ghost use Rattle.pq_words.specs.declared.entries.Entry.{Entry};
ghost use Rattle.pq_seats.specs.declared.views.Limits.{Limits};
ghost use Rattle.pq_seats.specs.declared.views.Post.{Post};
ghost use Rattle.pq_seats.specs.Passes.{limits_of, Belongs};
ghost use Rattle.pq_seats.specs.Passes as seats;
ghost use Rattle.pq_hunt.specs.declared.views.HuntPart.{HuntPart};
ghost use Rattle.pq_hunt.specs.Ties.{HuntTied};

use pq_api::{Gate, SharedQueue};
use pq_hunt::{HuntHeap, HuntRule};
use pq_seats::{SeatPass, SeatRule, SeatedQueue, Shared};

/// Law: a heap's words are a table under `HuntRule`, which ties words, seats and what the history leaves as `HuntTied`
/// does: these are the entries of the words and those in hand. A pass of the heap is a seat at this table, and the calls
/// that it keeps are those of the seat's view.
pub fn heaps_stand_under_their_rule<'a, G: Gate>(
    heap: &'a HuntHeap<G>,
    pass: &'a SeatPass<HuntRule>,
) -> (&'a Shared<HuntRule>, &'a SeatPass<HuntRule>)
    requires own { ⟦<HuntHeap<G> as SharedQueue>⟧.belongs heap.now pass.now }
    ensures tied { (k : Limits) (words : List ℕ) (posts : List (Post HuntPart)) (m : List Entry) →
        ⟦<HuntRule as SeatRule>⟧.rule.ties k words posts m → HuntTied k words posts m }
    ensures sits { Belongs result.0.now result.1.now }
    ensures keeps { ⟦<HuntHeap<G> as SharedQueue>⟧.known pass.now ≡ seats.known result.1.now }
    ensures opened { (⟦<HuntHeap<G> as SharedQueue>⟧.capacity_of heap.now ≡ (limits_of result.0.now).capacity)
        × (⟦<HuntHeap<G> as SharedQueue>⟧.seats_of heap.now ≡ (limits_of result.0.now).seats) }
{
    (heap.table(), HuntHeap::<G>::seat(pass))
}
