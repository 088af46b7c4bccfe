//! What passes learn of each other: notes that carry a front, and passes that are joined.
ghost use Rattle.std.specs.Prelude.{◌≡◌, ◌<◌, ◌≤◌, ◌+◌, None, [], max, length};
ghost use Rattle.pq_model.specs.Passes.{Knows, with_front, joined_with};
ghost use Rattle.pq_seats.specs.Views.{known_of, empty_post, with_seen};
ghost use Rattle.pq_seats.specs.Rules.{IsAtRest};
ghost use Rattle.pq_seats.specs.Seats.{note_of, joined_view};
ghost use Rattle.pq_seats.specs.Passes.{limits_of, view_of, known, Belongs, IsSamePass, IsInformed};

use crate::plays::{Learn, Meld, Note};
use crate::{SeatPass, SeatRule, Shared, View};
use atomic_table::Seat;

impl<R: SeatRule> Shared<R> {
    /// The pass knows a legal history that holds its calls. It keeps what it has. No insert of the pass may be in
    /// flight.
    pub fn learn(&self, pass: &mut SeatPass<R>)
        requires own { Belongs self.now pass.old }
        requires quiet { (view_of pass.old).post.flight ≡ None }
        ensures own { Belongs self.now pass.new }
        ensures same { IsSamePass pass.old pass.new }
        ensures view { view_of pass.new ≡ view_of pass.old }
        ensures knows { IsInformed self.now pass.new }
    {
        self.learn_seat(&mut pass.seat);
    }

    // The same of the seat alone, with the number of its lanes.
    fn learn_seat(&self, seat: &mut Seat<(), View<R::Own>>)
        requires table { seat.old.table_id ≡ self.now.table.shared.table_id }
        requires seated { 0 < seat.old.me.0.post.number }
        requires quiet { seat.old.me.0.post.flight ≡ None }
        ensures same { (seat.new.table_id ≡ seat.old.table_id) × (seat.new.id ≡ seat.old.id) ×
            (seat.new.me ≡ seat.old.me) }
        ensures knows { Knows seat.old.me.0.limits.seats seat.old.me.0.limits.capacity (known_of seat.new.me.0) }
        ensures few { length seat.new.me.0.lanes ≤ seat.old.me.0.limits.seats }
    {
        self.table.shared.load::<Learn<R>>(seat, 0);
    }

    /// Takes the other pass, with its lanes and what it has seen, into this one. The other is gone. Neither may have an
    /// insert in flight, and the other is at rest: it holds nothing, and the rule lets its own part go. That part is
    /// forgotten; this pass keeps its own.
    pub fn join(&self, pass: &mut SeatPass<R>, other: SeatPass<R>)
        requires own { Belongs self.now pass.old }
        requires quiet { (view_of pass.old).post.flight ≡ None }
        requires other { Belongs self.now other × IsAtRest R.rule (view_of other).post }
        ensures own { Belongs self.now pass.new }
        ensures same { (pass.new.number ≡ pass.old.number) × (pass.new.seat.id ≡ pass.old.seat.id) }
        ensures lanes { pass.new.lanes ≡ pass.old.lanes + other.lanes }
        ensures view { view_of pass.new ≡ joined_view (view_of pass.old) (view_of other) }
        ensures joined { known pass.new ≡ joined_with (known pass.old) (known other) }
        ensures knows { IsInformed self.now pass.new }
    {
        let SeatPass {
            number: _,
            lanes,
            seat,
        } = other;
        self.table.shared.join_seat::<Meld<R>>(&mut pass.seat, seat);
        self.learn_seat(&mut pass.seat);
        pass.lanes += lanes;
    }

    /// Tells each pass what the other has seen: both fronts become the greater of the two. Neither may have an insert
    /// in flight.
    pub fn meet(&self, first: &mut SeatPass<R>, second: &mut SeatPass<R>)
        requires first { Belongs self.now first.old × ((view_of first.old).post.flight ≡ None) }
        requires second { Belongs self.now second.old × ((view_of second.old).post.flight ≡ None) }
        ensures first { Belongs self.now first.new }
        ensures second { Belongs self.now second.new }
        ensures same { IsSamePass first.old first.new × IsSamePass second.old second.new }
        ensures fronts { let front = max (view_of first.old).front (view_of second.old).front in
            (view_of first.new ≡ with_seen (view_of first.old) front) ×
            (view_of second.new ≡ with_seen (view_of second.old) front) }
        ensures knows { IsInformed self.now first.new × IsInformed self.now second.new }
    {
        let from_first = self.note(first);
        let from_second = self.note(second);
        self.read(first, from_second);
        self.read(second, from_first);
    }

    // Carries the pass's front away.
    fn note(&self, pass: &mut SeatPass<R>) -> Seat<(), View<R::Own>>
        requires own { Belongs self.now pass.old }
        ensures own { Belongs self.now pass.new }
        ensures same { IsSamePass pass.old pass.new × (view_of pass.new ≡ view_of pass.old) }
        ensures note { (result.table_id ≡ self.now.table.shared.table_id) ×
            (result.me ≡ (note_of R.rule (view_of pass.old), [])) }
    {
        self.table.shared.split_seat::<Note<R>>(&mut pass.seat)
    }

    // Raises the pass's front to that of a note.
    fn read(&self, pass: &mut SeatPass<R>, note: Seat<(), View<R::Own>>)
        requires own { Belongs self.now pass.old }
        requires quiet { (view_of pass.old).post.flight ≡ None }
        requires note { (note.table_id ≡ self.now.table.shared.table_id) × (note.me.0.lanes ≡ []) ×
            (note.me.0.post ≡ empty_post R.rule.idle 0) × (note.me.1 ≡ []) }
        ensures own { Belongs self.now pass.new }
        ensures same { IsSamePass pass.old pass.new }
        ensures front { view_of pass.new ≡ with_seen (view_of pass.old) (max (view_of pass.old).front note.me.0.front) }
        ensures knows { IsInformed self.now pass.new }
    {
        self.table.shared.join_seat::<Meld<R>>(&mut pass.seat, note);
        self.learn_seat(&mut pass.seat);
    }
}
