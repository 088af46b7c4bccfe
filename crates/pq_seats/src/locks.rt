//! Lock words: 0 where free, else the number of the seat that holds the lock.
ghost use Rattle.std.specs.Prelude.{◌≡◌, ◌<◌, true, Contains, MatchBool};
ghost use Rattle.pq_seats.specs.Allowed.{MayTake, MayFree};
ghost use Rattle.pq_seats.specs.Steps.{Took, Missed, freed_view};
ghost use Rattle.pq_seats.specs.Passes.{limits_of, view_of, known, Belongs, IsSamePass, IsInformed};

use crate::plays::{Free, Try};
use crate::{SeatPass, SeatRule, Shared};
use crossbeam_utils::Backoff;
use std::sync::Wait;

impl<R: SeatRule> Shared<R> {
    /// Tries to take a lock by one exchange. The answer is true exactly where the word read was 0, by `read` of both
    /// answers; the word then has the number of this seat. In both cases the view has read further.
    pub fn try_lock(&self, pass: &mut SeatPass<R>, word: u32) -> bool
        requires own { Belongs self.now pass.old }
        requires lock { (R.rule.locks (limits_of self.now) word ≡ true) × (word < self.now.words) }
        requires allowed { MayTake R.rule (limits_of self.now) pass.old.seat.id (view_of pass.old) word }
        ensures own { Belongs self.now pass.new }
        ensures same { IsSamePass pass.old pass.new }
        ensures answer { MatchBool result
            (Took R.rule (view_of pass.old) (view_of pass.new) word)
            (Missed R.rule (view_of pass.old) (view_of pass.new)) }
    {
        let number = u64::from(pass.number);
        self.table
            .shared
            .compare_exchange::<Try<R>>(&mut pass.seat, word as usize, 0, number)
            == 0
    }

    /// Takes a lock. It backs off between two tries, and may wait for ever.
    pub fn lock<W: Wait>(&self, rt: &W, pass: &mut SeatPass<R>, word: u32)
        requires own { Belongs self.now pass.old }
        requires lock { (R.rule.locks (limits_of self.now) word ≡ true) × (word < self.now.words) }
        requires allowed { MayTake R.rule (limits_of self.now) pass.old.seat.id (view_of pass.old) word }
        ensures own { Belongs self.now pass.new }
        ensures same { IsSamePass pass.old pass.new }
        ensures took { Took R.rule (view_of pass.old) (view_of pass.new) word }
    {
        let backoff = Backoff::new();
        for _ in rt.forever() {
            if self.try_lock(pass, word) {
                return;
            }
            backoff.snooze();
        }
        unreachable!()
    }

    /// Frees a lock that this seat holds. The word is 0 at that step.
    pub fn unlock(&self, pass: &mut SeatPass<R>, word: u32)
        requires own { Belongs self.now pass.old }
        requires held { Contains (view_of pass.old).post.locks word × (word < self.now.words) }
        requires allowed { MayFree R.rule (limits_of self.now) pass.old.seat.id (view_of pass.old) word }
        ensures own { Belongs self.now pass.new }
        ensures same { IsSamePass pass.old pass.new }
        ensures view { view_of pass.new ≡ freed_view R.rule (view_of pass.old) word }
    {
        self.table
            .shared
            .store::<Free<R>>(&mut pass.seat, word as usize, 0);
    }
}
