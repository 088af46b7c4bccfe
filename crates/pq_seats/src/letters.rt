//! Letters: who places the mark of another seat's insert leaves its owner a word that says where.
ghost use Rattle.std.specs.Prelude.{◌≡◌, ◌<◌, Contains};
ghost use Rattle.pq_words.specs.Letters.{letter_number};
ghost use Rattle.pq_seats.specs.Allowed.{MayLeave};
ghost use Rattle.pq_seats.specs.Steps.{left_view, IsTaken};
ghost use Rattle.pq_seats.specs.Passes.{limits_of, view_of, known, Belongs, IsSamePass, IsInformed};

use crate::plays::{Leave, Take};
use crate::{SeatPass, SeatRule, Shared};
use pq_words::Letter;

impl<R: SeatRule> Shared<R> {
    /// Leaves an owner the letter that this seat owes it. The owner's letter word holds it then.
    pub fn leave_letter(&self, pass: &mut SeatPass<R>, owner: u32, letter: Letter)
        requires own { Belongs self.now pass.old }
        requires owed { Contains (view_of pass.old).post.owed (owner, letter_number letter) }
        requires owner { owner < self.now.words }
        requires allowed { let id = pass.old.seat.id in
            MayLeave R.rule (limits_of self.now) id (view_of pass.old) owner (letter_number letter) }
        ensures own { Belongs self.now pass.new }
        ensures same { IsSamePass pass.old pass.new }
        ensures view { view_of pass.new ≡ left_view (view_of pass.old) owner }
    {
        let word = letter.pack();
        self.table
            .shared
            .store::<Leave<R>>(&mut pass.seat, owner as usize, word);
    }

    /// Takes the seat's own letter, by one swap of its letter word to 0. `Nothing` comes exactly where the word read
    /// was 0: the view has read one word more then, which was 0. At a letter with a place the pass has made the call
    /// of its insert in flight there, answered Done.
    pub fn take_letter(&self, pass: &mut SeatPass<R>) -> Letter
        requires own { Belongs self.now pass.old }
        ensures own { Belongs self.now pass.new }
        ensures same { IsSamePass pass.old pass.new }
        ensures known { R.rule.knows (view_of pass.old).post.own result }
        ensures taken { IsTaken R.rule (view_of pass.old) result (view_of pass.new) }
    {
        let number = pass.number as usize;
        let word = self.table.shared.swap::<Take<R>>(&mut pass.seat, number, 0);
        Letter::unpack(word)
    }
}
