//! The table of timers and its seats.
ghost use Rattle.std.specs.Prelude.{◌≡◌, ◌≢◌, ℕ, suc, ◌+◌, ◌*◌, ◌%◌, ◌^◌, ◌<◌, ◌≤◌, [], length, Contains};
ghost use Rattle.std.specs.Prelude.{IfOk, IfErr, MatchBool, None, replicate};
ghost use mathlib.Core.Option.{none};
ghost use Rattle.atomic_table.specs.Table.{step};
ghost use Rattle.pq_model.specs.Limits.{max_seats};
ghost use Rattle.pq_timers.specs.Limits.{max_timers, moment_limit, use_limit};
ghost use Rattle.pq_timers.specs.Words.{IsSeatOf, new_timer_seat, armed_state, ticket, with_arm, with_armed};
ghost use Rattle.pq_timers.specs.Words.{with_refused, with_state, kept_joined, HasArmed, IsCancel, IsNotRefused};
ghost use Rattle.pq_timers.specs.Words.{answer_of, KnowsTimers};
ghost use Rattle.pq_timers.specs.Words.{looked, HasWaited, IsFired, IsDropped};
ghost use Rattle.pq_timers.specs.WordRules.{giver, first_giver, drew, tried_fire};
ghost use Rattle.pq_timers.specs.declared.words.kept.Kept.{Kept};
ghost use Rattle.pq_timers.specs.declared.answers.Cancel.TheVariants as cancels;

use super::kept::TimerLimits;
use super::rule::{
    ARMED, CANCELLED, Deal, DrawNumber, FIRED, Hand, Learn, Moment, NONE, REFUSED, SeeMoment,
    SeeState, SetArmed, StoreMoment, Together, TryCancel, TryFire, TryRefuse, Words,
};
use crate::answers::Cancel;
use crate::ticket::Ticket;
use crossbeam_utils::Backoff;
use pq_io::NoMemory;
use std::alloc::{AllocError, Global};
use std::marker::{Brand, Model};
use std::sync::Wait;

/// The words of timers: a made word, and a moment word and a state word for each. Callers that each hold a seat share
/// them.
///
/// Contracts see the table, by which a seat is known to be one of it, and what it was opened for.
#[derive(Drop)]
pub struct TimerTable {
    table: Words,
    limits: TimerLimits,
}

impl Model for TimerTable {
    ghost use Rattle.std.specs.Prelude.{◌≡◌, ◌+◌, ◌*◌, ◌≤◌};
    ghost use Rattle.pq_timers.specs.Limits.{max_timers};
    ghost use Rattle.pq_timers.specs.Words.{TimersSeen};

    ghost Value = { TimersSeen };

    ghost view = { λ s. record { table = s.table.shared.table_id; limits = s.limits } };

    ghost invariant = { λ s. (s.table.shared.table_id.words ≡ 2 * s.limits.timers + 1)
        × (s.limits.timers ≤ max_timers) × (s.table.shared.key ≡ s.limits) };
}

/// What a caller holds, to arm, cancel and fire with.
///
/// Contracts see its table and what the seat keeps.
#[derive(Drop)]
pub struct TimerSeat {
    seat: Hand,
}

impl Model for TimerSeat {
    ghost use Rattle.std.specs.Prelude.{◌≡◌, ◌<◌, [], None, Contains};
    ghost use Rattle.pq_timers.specs.Words.{TimerSeated};
    ghost use Rattle.pq_timers.specs.WordRules.{AreTimers};

    ghost Value = { TimerSeated };

    ghost view = { λ s. record { table = s.seat.table_id; kept = s.seat.me.0.kept } };

    ghost invariant = { λ s. (s.seat.me.1 ≡ []) × (s.seat.me.0.arming ≡ None) × (0 < s.seat.me.0.kept.parts)
        × AreTimers s.seat.me.0.kept };
}

impl TimerTable {
    /// The words of so many timers, none of which is drawn, and all seats at once. Takes all memory that they need: 16
    /// bytes for each timer.
    pub fn open(
        alloc: Global,
        timers: u32,
        seats: u32,
    ) -> Result<(TimerTable, Vec<TimerSeat>), NoMemory>
        requires timers { (1 ≤ timers) × (timers ≤ max_timers) }
        requires seats { (1 ≤ seats) × (seats ≤ max_seats) }
        ensures limits { IfOk result (λ r. r.0.limits ≡ record { seats = seats; timers = timers }) }
        ensures seats { IfOk result (λ r. r.1.items ≡ replicate seats (new_timer_seat r.0)) }
    {
        let (table, dealer) = TimerTable::begin(alloc, TimerLimits { seats, timers })?;
        let all = table.deal_all(alloc, dealer)?;
        Ok((table, all))
    }

    // The words, and a seat that has all parts.
    fn begin(alloc: Global, limits: TimerLimits) -> Result<(TimerTable, Hand), AllocError>
        requires timers { limits.timers ≤ max_timers }
        requires seats { limits.seats ≤ max_seats }
        ensures limits { IfOk result (λ r. r.0.limits ≡ limits) }
        ensures dealer { IfOk result (λ r. (r.1.table_id ≡ r.0.table) × (r.1.me ≡ (first_giver limits, []))) }
    {
        let words = vec![in alloc; 0; 2 * limits.timers as usize + 1]?;
        let (table, dealer) = Words::of_words(alloc, words.as_slice(), &limits)?;
        Ok((TimerTable { table, limits }, dealer))
    }

    // Gives all parts of the dealer to new seats.
    fn deal_all(&self, alloc: Global, mut dealer: Hand) -> Result<Vec<TimerSeat>, NoMemory>
        requires own { dealer.table_id ≡ self.now.table }
        requires parts { dealer.me ≡ (first_giver self.now.limits, []) }
        ensures seats { IfOk result (λ all. all.items ≡ replicate self.now.limits.seats (new_timer_seat self.now)) }
    {
        let mut all = Vec::with_capacity(alloc, self.limits.seats as usize)?;
        for _ in 0..self.limits.seats {
            all.push(self.deal(&mut dealer))?;
        }
        Ok(all)
    }

    // Gives one part of the dealer to a new seat.
    fn deal(&self, dealer: &mut Hand) -> TimerSeat
        requires own { dealer.old.table_id ≡ self.now.table }
        requires parts { (parts : ℕ) × (dealer.old.me ≡ (giver self.now.limits (suc parts), [])) }
        ensures own { dealer.new.table_id ≡ dealer.old.table_id }
        ensures dealt { (parts : ℕ) → dealer.old.me ≡ (giver self.now.limits (suc parts), [])
            → (dealer.new.me ≡ (giver self.now.limits parts, [])) × (result ≡ new_timer_seat self.now) }
    {
        let seat = self.table.shared.split_seat::<Deal>(dealer);
        TimerSeat { seat }
    }

    /// Draws a number, which is the caller's alone, and arms the timer of this number: its moment is stored, and then
    /// its state. Where the number drawn is not one of a timer, this number is told, and nothing else is done. Three
    /// steps at most; takes no memory.
    pub fn arm(&self, seat: &mut TimerSeat, moment: u32) -> Result<Ticket, u32>
        requires own { IsSeatOf self.now seat.old }
        requires moment { moment < moment_limit }
        requires few { length seat.old.kept.arms < use_limit }
        ensures own { IsSeatOf self.now seat.new }
        ensures armed { IfOk result (λ t. (t.moment ≡ moment) × (t.number < self.now.limits.timers)
            × (seat.new.kept ≡ with_armed (with_arm seat.old.kept t) t)) }
        ensures spent { IfErr result (λ number. (self.now.limits.timers ≤ number)
            × (seat.new.kept ≡ with_arm seat.old.kept (ticket number moment))) }
        ensures knows { KnowsTimers seat.new.kept }
    {
        let number = self.draw_as::<Brand>(&mut seat.seat, moment) as u32;
        if number >= self.limits.timers {
            return Err(number);
        }
        let words = &self.table.shared;
        let at = 2 * number as usize + 1;
        words.store::<StoreMoment>(&mut seat.seat, at, moment as u64 + 1);
        words.store::<SetArmed>(&mut seat.seat, at + 1, ARMED);
        Ok(Ticket { number, moment })
    }

    fn draw_as<L: Moment>(&self, seat: &mut Hand, moment: u32) -> u64
        requires own { seat.old.table_id ≡ self.now.table }
        requires picked { L.moment ≡ moment }
        requires idle { seat.old.me.0.arming ≡ None }
        requires some { 0 < seat.old.me.0.kept.parts }
        requires few { length seat.old.me.0.kept.arms < use_limit }
        ensures own { seat.new.table_id ≡ seat.old.table_id }
        ensures drawn { drew (step 0 0 1 0 none) seat.old.me result seat.new.me moment }
    {
        self.table.shared.fetch_add::<DrawNumber<L>>(seat, 0, 1)
    }

    /// Cancels the timer of the ticket where it is armed, by one load of its moment word and one exchange of its state.
    /// Waits for nobody, and takes no memory.
    pub fn cancel(&self, seat: &mut TimerSeat, ticket: Ticket) -> Cancel
        requires own { IsSeatOf self.now seat.old }
        ensures own { IsSeatOf self.now seat.new }
        ensures answer { IsCancel seat.old.kept ticket result seat.new.kept }
        ensures known { HasArmed seat.old.kept ticket → result ≢ cancels.Unknown }
    {
        let hand = &mut seat.seat;
        if ticket.number >= self.limits.timers {
            return Cancel::Unknown;
        }
        let words = &self.table.shared;
        let at = 2 * ticket.number as usize + 1;
        if words.load::<SeeMoment>(hand, at) != ticket.moment as u64 + 1 {
            return Cancel::Unknown;
        }
        cancel_of(words.compare_exchange::<TryCancel>(hand, at + 1, ARMED, CANCELLED))
    }

    /// Refuses a timer that the seat armed, where it is still armed, and says whether it was.
    pub fn refuse(&self, seat: &mut TimerSeat, ticket: Ticket) -> bool
        requires own { IsSeatOf self.now seat.old }
        requires armed { Contains seat.old.kept.armed ticket }
        ensures own { IsSeatOf self.now seat.new }
        ensures refused { MatchBool result
            (seat.new.kept ≡ with_refused (with_state seat.old.kept ticket.number armed_state) ticket)
            (IsNotRefused seat.old.kept ticket seat.new.kept) }
        ensures knows { KnowsTimers seat.new.kept }
    {
        let at = 2 * ticket.number as usize + 1;
        let words = &self.table.shared;
        words.compare_exchange::<TryRefuse>(&mut seat.seat, at + 1, ARMED, REFUSED) == ARMED
    }

    /// Fires the timer of the ticket where it is armed, at this moment, which is that of the ticket or later, and says
    /// whether it was. Waits until the timer's state is stored. Takes no memory.
    pub fn fire<R: Wait>(&self, rt: &R, seat: &mut TimerSeat, ticket: Ticket, now: u32) -> bool
        requires own { IsSeatOf self.now seat.old }
        requires due { ticket.moment ≤ now }
        ensures own { IsSeatOf self.now seat.new }
        ensures answer { MatchBool result
            (IsFired seat.old.kept ticket now seat.new.kept) (IsDropped seat.old.kept ticket seat.new.kept) }
    {
        if ticket.number >= self.limits.timers {
            return false;
        }
        self.wait_until_set(rt, seat, ticket.number);
        let hand = &mut seat.seat;
        let at = 2 * ticket.number as usize + 1;
        if self.table.shared.load::<SeeMoment>(hand, at) != ticket.moment as u64 + 1 {
            return false;
        }
        self.fire_as::<Brand>(hand, ticket, now) == ARMED
    }

    // Reads the state of a timer until it is not none.
    fn wait_until_set<R: Wait>(&self, rt: &R, seat: &mut TimerSeat, number: u32)
        requires own { IsSeatOf self.now seat.old }
        requires within { number < self.now.limits.timers }
        ensures own { IsSeatOf self.now seat.new }
        ensures waited { HasWaited seat.old.kept number seat.new.kept }
    {
        let backoff = Backoff::new();
        for _ in rt.forever() {
            if self.state(seat, number) != NONE {
                return;
            }
            backoff.snooze();
        }
        unreachable!()
    }

    // Reads the state of a timer.
    fn state(&self, seat: &mut TimerSeat, number: u32) -> u64
        requires own { IsSeatOf self.now seat.old }
        requires within { number < self.now.limits.timers }
        ensures own { IsSeatOf self.now seat.new }
        ensures read { seat.new.kept ≡ with_state seat.old.kept number result }
    {
        let at = 2 * number as usize + 1;
        self.table.shared.load::<SeeState>(&mut seat.seat, at + 1)
    }

    // Tries to fire the timer of the ticket, whose moment was read, and gives the state that was found.
    fn fire_as<L: Moment>(&self, hand: &mut Hand, ticket: Ticket, now: u32) -> u64
        requires own { hand.old.table_id ≡ self.now.table }
        requires picked { L.moment ≡ now }
        requires rests { (hand.old.me.0.arming ≡ None) × (0 < hand.old.me.0.kept.parts) }
        requires within { ticket.number < self.now.limits.timers }
        requires looked { (k : Kept) × (hand.old.me.0.kept ≡ looked k ticket) }
        requires waited { (hand.old.me.0.kept.state_of ≡ ticket.number) × (hand.old.me.0.kept.state_word ≢ 0) }
        requires due { ticket.moment ≤ now }
        ensures own { hand.new.table_id ≡ hand.old.table_id }
        ensures fired { tried_fire (step 0 0 0 0 none) hand.old.me result hand.new.me now }
    {
        let at = 2 * ticket.number as usize + 1;
        self.table
            .shared
            .compare_exchange::<TryFire<L>>(hand, at + 1, ARMED, FIRED)
    }

    /// Adds what `other` did to `into`. Waits for nobody, and takes no memory.
    pub fn join(&self, into: &mut TimerSeat, other: TimerSeat)
        requires own { IsSeatOf self.now into.old × IsSeatOf self.now other }
        ensures own { IsSeatOf self.now into.new }
        ensures joined { into.new.kept ≡ kept_joined into.old.kept other.kept }
        ensures knows { KnowsTimers into.new.kept }
    {
        let TimerSeat { seat } = other;
        let words = &self.table.shared;
        words.join_seat::<Together>(&mut into.seat, seat);
        words.load::<Learn>(&mut into.seat, 0);
    }
}

// The answer of a cancel that found this state.
fn cancel_of(state: u64) -> Cancel
    ensures { result ≡ answer_of state }
{
    if state == ARMED {
        return Cancel::Done;
    }
    if state == CANCELLED {
        return Cancel::WasCancelled;
    }
    if state == FIRED {
        return Cancel::WasFired;
    }
    Cancel::Unknown
}
