//! The history word: its length, and the marks that one step places.
ghost use Rattle.std.specs.Prelude.{◌≡◌, ℕ, ◌+◌, ◌-◌, ◌<◌, ◌≤◌, List, length, None};
ghost use Rattle.pq_model.specs.declared.marks.Mark.{Mark};
ghost use Rattle.pq_model.specs.Passes.{Witnesses, Knows, with_front};
ghost use Rattle.pq_api.specs.Limits.{call_limit};
ghost use Rattle.pq_api.specs.Answers.{MakesCall};
ghost use Rattle.pq_seats.specs.Views.{known_of, with_seen};
ghost use Rattle.pq_seats.specs.Batches.{own_place};
ghost use Rattle.pq_seats.specs.Allowed.{MayDraw};
ghost use Rattle.pq_seats.specs.Steps.{batch_of, drawn_view};
ghost use Rattle.pq_seats.specs.Passes.{limits_of, view_of, known, Belongs, IsSamePass, IsInformed};

use crate::plays::{Draw, Intent, Measure};
use crate::{SeatPass, SeatRule, Shared};
use pq_model::Act;
use std::marker::Brand;

impl<R: SeatRule> Shared<R> {
    /// The length of the history at one step of this call, which becomes the pass's front. No mark is made. No insert
    /// of the pass may be in flight.
    pub fn length(&self, pass: &mut SeatPass<R>) -> u32
        requires plain { (x : ℕ) → R.rule.length_of x ≡ x }
        requires own { Belongs self.now pass.old }
        requires quiet { (view_of pass.old).post.flight ≡ None }
        ensures own { Belongs self.now pass.new }
        ensures same { IsSamePass pass.old pass.new }
        ensures view { view_of pass.new ≡ with_seen (view_of pass.old) result }
        ensures front { ((view_of pass.old).front ≤ result) × (known pass.new ≡ with_front (known pass.old) result) }
        ensures knows { let k = limits_of self.now in (history : List Mark) ×
            Witnesses k.seats k.capacity (known pass.new) history × (length history ≡ result) }
    {
        self.table.shared.load::<Measure<R>>(&mut pass.seat, 0) as u32
    }

    /// Places 1 to 3 marks by one step, and gives the place of the first. Which marks, the rule tells by the post, the
    /// act and their number: the pass's own among inserts of other seats. The pass has made its own call more, at the
    /// place of its mark, and owes each other owner a letter. No insert of the pass is in flight then.
    pub fn draw(&self, pass: &mut SeatPass<R>, act: Act, marks: u32) -> u32
        requires plain { (x : ℕ) → R.rule.length_of x ≡ x }
        requires own { Belongs self.now pass.old }
        requires marks { marks ≤ 3 }
        requires few { length (known pass.old).calls < call_limit - 1 }
        requires allowed { MayDraw R.rule (limits_of self.now) pass.old.seat.id (view_of pass.old) act marks }
        ensures own { Belongs self.now pass.new }
        ensures same { IsSamePass pass.old pass.new }
        ensures view { view_of pass.new ≡ drawn_view R.rule (view_of pass.old) act marks result }
        ensures call { let b = batch_of R.rule (view_of pass.old) act marks in
            MakesCall (known pass.old) (own_place result b) act b.reply (known pass.new) }
        ensures knows { IsInformed self.now pass.new }
    {
        self.draw_as::<Brand>(pass, act, marks)
    }

    // The same, where the proof has picked the act.
    fn draw_as<I: Intent>(&self, pass: &mut SeatPass<R>, act: Act, marks: u32) -> u32
        requires picked { act ≡ I.act }
        requires plain { (x : ℕ) → R.rule.length_of x ≡ x }
        requires own { Belongs self.now pass.old }
        requires marks { marks ≤ 3 }
        requires few { length (known pass.old).calls < call_limit - 1 }
        requires allowed { MayDraw R.rule (limits_of self.now) pass.old.seat.id (view_of pass.old) act marks }
        ensures own { Belongs self.now pass.new }
        ensures same { IsSamePass pass.old pass.new }
        ensures view { view_of pass.new ≡ drawn_view R.rule (view_of pass.old) act marks result }
        ensures call { let b = batch_of R.rule (view_of pass.old) act marks in
            MakesCall (known pass.old) (own_place result b) act b.reply (known pass.new) }
        ensures knows { IsInformed self.now pass.new }
    {
        self.table
            .shared
            .fetch_add::<Draw<R, I>>(&mut pass.seat, 0, u64::from(marks)) as u32
    }
}
