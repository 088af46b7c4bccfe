//! One table under a rule, and the passes at it: their opening and their end.
ghost use Rattle.std.specs.Prelude.{◌≡◌, ◌<◌};
ghost use Rattle.pq_model.specs.Limits.{max_seats};
ghost use Rattle.pq_model.specs.History.{IsSeat};

use crate::plays::Deal;
use crate::{Limits, Ruled, SeatRule, View};
use atomic_table::{Closed, Seat, Table};
use pq_io::NoMemory;
use std::alloc::Global;

/// One table under the rule of `R`. Word 0 is the history word, and the words 1 to 16 are the letters of the seats.
///
/// A queue makes its further kinds of step on `table`, with the seat of a pass.
#[derive(Drop)]
pub struct Shared<R: SeatRule> {
    pub table: Table<(), View<R::Own>, Limits, Ruled<R>, Global>,
    /// How many words the table has.
    pub words: usize,
    /// How many seats it was opened with.
    pub seats: u32,
    pub ghost sized: { (words ≡ table.shared.table_id.words) × (words ≡ table.shared.key.words) },
    pub ghost seated: { (seats ≡ table.shared.key.seats) × IsSeat max_seats seats },
    pub ghost wide: { max_seats < words },
    pub ghost bare: { table.shared.table_id.slots ≡ 0 },
}

/// A seat at a table, with what a program has to know of its view.
#[derive(Drop)]
pub struct SeatPass<R: SeatRule> {
    /// The number that its calls are made under, from 1 on.
    pub number: u32,
    /// How many passes were joined, this one counted.
    pub lanes: u32,
    pub seat: Seat<(), View<R::Own>>,
}

impl<R: SeatRule> Shared<R> {
    ghost use Rattle.std.specs.Prelude.{◌≡◌, ℕ, suc, ◌+◌, ◌≤◌, length, [], IfOk};
    ghost use Rattle.std.specs.Mem.Slots.{slots_len, slots_items, IsFull};
    ghost use Rattle.pq_model.specs.History.{IsSeat};
    ghost use Rattle.pq_model.specs.Passes.{fresh};
    ghost use Rattle.pq_api.specs.Answers.{EachAt};
    ghost use Rattle.pq_seats.specs.Rules.{IsAtRest};
    ghost use Rattle.pq_seats.specs.Seats.{limits_for, dealt, newcomer, Begins, Ended};
    ghost use Rattle.pq_seats.specs.Passes.{limits_of, view_of, known, Belongs};

    /// Opens a table with these words, and gives all its passes at once. They are numbered from 1 to `seats`, and have
    /// made no call. The history is empty. Refused for want of memory, the words are dropped.
    pub fn open(
        alloc: Global,
        words: Vec<u64>,
        capacity: u32,
        seats: u32,
    ) -> Result<(Shared<R>, Vec<SeatPass<R>>), NoMemory>
        requires { Begins R.rule (limits_for capacity seats words.items) words.items }
        ensures limits { IfOk result (λ r. limits_of r.0 ≡ limits_for capacity seats words.items) }
        ensures count { IfOk result (λ r. length r.1.items ≡ seats) }
        ensures passes { IfOk result (λ r. EachAt (λ i p. Belongs r.0 p × (known p ≡ fresh (i + 1)) ×
            (view_of p ≡ newcomer R.rule (limits_of r.0) (i + 1))) r.1.items) }
    {
        let mut passes = Vec::new(alloc);
        let (shared, mut dealer) = Shared::begin(alloc, words.as_slice(), capacity, seats)?;
        for i in 0..seats {
            passes.push(shared.deal(&mut dealer, i + 1))?;
        }
        Ok((shared, passes))
    }

    // The table, and the seat that has all lanes.
    fn begin(
        alloc: Global,
        words: &[u64],
        capacity: u32,
        seats: u32,
    ) -> Result<(Shared<R>, Seat<(), View<R::Own>>), NoMemory>
        requires { Begins R.rule (limits_for capacity seats words.now) words.now }
        ensures limits { IfOk result (λ r. limits_of r.0 ≡ limits_for capacity seats words.now) }
        ensures dealer { IfOk result (λ r. (r.1.table_id ≡ r.0.table.shared.table_id) ×
            (r.1.me ≡ (dealt R.rule (limits_for capacity seats words.now) 1 seats, []))) }
    {
        let limits = Limits {
            capacity,
            seats,
            words: words.len(),
        };
        let (table, dealer) = Table::of_words(alloc, words, &limits)?;
        let words = words.len();
        Ok((
            Shared {
                table,
                words,
                seats,
            },
            dealer,
        ))
    }

    // Gives the dealer's first lane to a new pass.
    fn deal(&self, dealer: &mut Seat<(), View<R::Own>>, number: u32) -> SeatPass<R>
        requires table { dealer.old.table_id ≡ self.now.table.shared.table_id }
        requires lanes { (more : ℕ) × (dealer.old.me ≡ (dealt R.rule (limits_of self.now) number (suc more), [])) }
        requires seated { IsSeat (limits_of self.now).seats number }
        ensures dealer { (dealer.new.table_id ≡ dealer.old.table_id) × ((more : ℕ) →
            dealer.old.me ≡ (dealt R.rule (limits_of self.now) number (suc more), []) →
            dealer.new.me ≡ (dealt R.rule (limits_of self.now) (number + 1) more, [])) }
        ensures pass { Belongs self.now result }
        ensures new { view_of result ≡ newcomer R.rule (limits_of self.now) number }
    {
        let seat = self.table.shared.split_seat::<Deal<R>>(dealer);
        SeatPass {
            number,
            lanes: 1,
            seat,
        }
    }

    /// Ends the table, once all passes are joined into this one and it is at rest. The words come back, and the calls
    /// of all passes, put by place, are the whole history. There is no slot to empty before the words are freed.
    pub fn close(self, pass: SeatPass<R>) -> Closed<(), Global>
        requires own { Belongs self pass }
        requires all { self.seats ≤ pass.lanes }
        requires rests { IsAtRest R.rule (view_of pass).post }
        ensures words { (slots_len result.words ≡ (limits_of self).words) × IsFull result.words }
        ensures slots { slots_len result.slots ≡ 0 }
        ensures ended { Ended R.rule (limits_of self) (view_of pass) (slots_items result.words) }
    {
        let Shared {
            table,
            words: _,
            seats: _,
        } = self;
        let SeatPass {
            number: _,
            lanes: _,
            seat,
        } = pass;
        table.close_with(seat)
    }
}
