//! The control and its seats.
ghost use Rattle.std.specs.Prelude.{◌≡◌, ℕ, suc, ◌+◌, ◌/◌, ◌%◌, ◌^◌, ◌<◌, ◌≤◌, [], IfOk, IfSome, replicate};
ghost use Rattle.pq_model.specs.Limits.{max_seats};
ghost use Rattle.bb_problem.specs.Limits.{cost_limit};
ghost use Rattle.bb_shared.specs.Controls.{ControlSeated, new_control_seat, with_opened, with_cost, controls_joined};
ghost use Rattle.bb_shared.specs.Controls.{stop_word, stop_in, IsTellable, KnowsControl};
ghost use Rattle.bb_shared.specs.Controls.{IsClosed, IsIdleRead, IsRead, IsStopSet, IsStopRead};
ghost use Rattle.bb_shared.specs.ControlRules.{teller};

use super::rule::{
    BEST, CloseOne, ControlHand, ControlTable, Deal, Learn, OPEN, OpenMore, STOP, SeeBest, SeeOpen,
    SeeStop, SetStop, TellCost, Together, WORDS,
};
use super::stop::Stop;
use bb_problem::COST_LIMIT;
use pq_io::NoMemory;
use std::alloc::{AllocError, Global};
use std::marker::Model;

/// The open word, the best word and the stop word of a search. Callers that each hold a seat share them.
///
/// Contracts see the table, by which a seat is known to be one of the control's.
#[derive(Drop)]
pub struct Control {
    table: ControlTable,
}

impl Model for Control {
    ghost use Rattle.std.specs.Prelude.{◌≡◌};
    ghost use Rattle.atomic_table.specs.Seated.{TableId};
    ghost use Rattle.bb_shared.specs.ControlRules.{control_words};

    ghost Value = { TableId };

    ghost view = { λ s. s.table.shared.table_id };

    ghost invariant = { λ s. s.table.shared.table_id.words ≡ control_words };
}

/// What a caller holds, to tell and to read with.
///
/// Contracts see the table of its control and what the seat keeps.
#[derive(Drop)]
pub struct ControlSeat {
    seat: ControlHand,
}

impl Model for ControlSeat {
    ghost use Rattle.std.specs.Prelude.{◌≡◌, ◌<◌, []};
    ghost use Rattle.bb_shared.specs.Controls.{ControlSeated};

    ghost Value = { ControlSeated };

    ghost view = { λ s. record { control = s.seat.table_id; kept = s.seat.me.0 } };

    ghost invariant = { λ s. (s.seat.me.1 ≡ []) × (0 < s.seat.me.0.parts) };
}

impl Control {
    /// A control where nothing is open, no cost is told and no stop is set, and all its seats at once. Takes all
    /// memory that the control needs.
    pub fn open(alloc: Global, seats: u32) -> Result<(Control, Vec<ControlSeat>), NoMemory>
        requires seats { (1 ≤ seats) × (seats ≤ max_seats) }
        ensures seats { IfOk result (λ r. r.1.items ≡ replicate seats (new_control_seat r.0 seats)) }
    {
        let (control, dealer) = Control::begin(alloc, seats)?;
        let all = control.deal_all(alloc, dealer, seats)?;
        Ok((control, all))
    }

    // A control, and a seat that has all parts.
    fn begin(alloc: Global, seats: u32) -> Result<(Control, ControlHand), AllocError>
        ensures dealer { IfOk result (λ r. (r.1.table_id ≡ r.0) × (r.1.me ≡ (teller seats seats, []))) }
    {
        let (table, dealer) = ControlTable::of_words(alloc, &[0; WORDS], &seats)?;
        Ok((Control { table }, dealer))
    }

    // Gives all parts of the dealer to new seats.
    fn deal_all(
        &self,
        alloc: Global,
        mut dealer: ControlHand,
        seats: u32,
    ) -> Result<Vec<ControlSeat>, NoMemory>
        requires own { dealer.table_id ≡ self.now }
        requires parts { dealer.me ≡ (teller seats seats, []) }
        ensures seats { IfOk result (λ all. all.items ≡ replicate seats (new_control_seat self.now seats)) }
    {
        let mut all = Vec::with_capacity(alloc, seats as usize)?;
        for _ in 0..seats {
            all.push(self.deal(&mut dealer))?;
        }
        Ok(all)
    }

    // Gives one part of the dealer to a new seat.
    fn deal(&self, dealer: &mut ControlHand) -> ControlSeat
        requires own { dealer.old.table_id ≡ self.now }
        requires parts { (seats parts : ℕ) × (dealer.old.me ≡ (teller seats (suc parts), [])) }
        ensures own { dealer.new.table_id ≡ dealer.old.table_id }
        ensures dealt { (seats parts : ℕ) → dealer.old.me ≡ (teller seats (suc parts), [])
            → (dealer.new.me ≡ (teller seats parts, [])) × (result ≡ new_control_seat self.now seats) }
    {
        let seat = self.table.shared.split_seat::<Deal>(dealer);
        ControlSeat { seat }
    }

    /// Adds to the open word, which counts modulo 2^64.
    pub fn opened(&self, seat: &mut ControlSeat, count: u32)
        requires own { seat.old.control ≡ self.now }
        ensures own { seat.new.control ≡ seat.old.control }
        ensures opened { seat.new.kept ≡ with_opened seat.old.kept count }
    {
        self.table
            .shared
            .fetch_add::<OpenMore>(&mut seat.seat, OPEN, count as u64);
    }

    /// Takes one away from the open word, and gives what is left, modulo 2^32. The seat has added more than it has
    /// taken away.
    pub fn closed(&self, seat: &mut ControlSeat) -> u32
        requires own { seat.old.control ≡ self.now }
        requires more { seat.old.kept.closed < seat.old.kept.opened }
        ensures own { seat.new.control ≡ seat.old.control }
        ensures closed { IsClosed seat.old.kept result seat.new.kept }
    {
        let found = self
            .table
            .shared
            .fetch_sub::<CloseOne>(&mut seat.seat, OPEN, 1);
        (found.wrapping_sub(1) % (1 << 32)) as u32
    }

    /// Whether nothing is open: exactly where the open word, loaded once, is 0.
    pub fn idle(&self, seat: &mut ControlSeat) -> bool
        requires own { seat.old.control ≡ self.now }
        ensures own { seat.new.control ≡ seat.old.control }
        ensures read { IsIdleRead seat.old.kept result seat.new.kept }
    {
        self.table.shared.load::<SeeOpen>(&mut seat.seat, OPEN) == 0
    }

    /// The least cost that was told so far, by one load. `None` exactly where the word is 0: none was told yet. Never
    /// more than the seat read before.
    pub fn best(&self, seat: &mut ControlSeat) -> Option<u32>
        requires own { seat.old.control ≡ self.now }
        ensures own { seat.new.control ≡ seat.old.control }
        ensures small { IfSome result (λ cost. cost < cost_limit) }
        ensures read { IsRead seat.old.kept result seat.new.kept }
    {
        let word = self.table.shared.load::<SeeBest>(&mut seat.seat, BEST);
        if word == 0 {
            return None;
        }
        Some(COST_LIMIT - word as u32)
    }

    /// Tells a cost. The best is at most this from now on.
    pub fn better(&self, seat: &mut ControlSeat, cost: u32)
        requires own { seat.old.control ≡ self.now }
        requires cost { cost < cost_limit }
        ensures own { seat.new.control ≡ seat.old.control }
        ensures better { seat.new.kept ≡ with_cost seat.old.kept cost }
    {
        self.table
            .shared
            .fetch_max::<TellCost>(&mut seat.seat, BEST, (COST_LIMIT - cost) as u64);
    }

    /// Sets the stop. Where one was set before, that one stays: the first wins.
    pub fn stop(&self, seat: &mut ControlSeat, stop: Stop)
        requires own { seat.old.control ≡ self.now }
        requires tellable { IsTellable stop }
        ensures own { seat.new.control ≡ seat.old.control }
        ensures stop { IsStopSet seat.old.kept stop seat.new.kept }
    {
        self.table
            .shared
            .compare_exchange::<SetStop>(&mut seat.seat, STOP, 0, word_of(stop));
    }

    /// The first stop of all, by one load. `None` exactly where the word is 0: none was set yet.
    pub fn stopped(&self, seat: &mut ControlSeat) -> Option<Stop>
        requires own { seat.old.control ≡ self.now }
        ensures own { seat.new.control ≡ seat.old.control }
        ensures read { IsStopRead seat.old.kept result seat.new.kept }
    {
        let word = self.table.shared.load::<SeeStop>(&mut seat.seat, STOP);
        stop_of(word)
    }

    /// Adds what `other` told, read and set to `into`. Waits for nobody.
    pub fn join(&self, into: &mut ControlSeat, other: ControlSeat)
        requires own { (into.old.control ≡ self.now) × (other.control ≡ self.now) }
        ensures own { into.new.control ≡ into.old.control }
        ensures joined { into.new.kept ≡ controls_joined into.old.kept other.kept }
        ensures knows { KnowsControl into.new.kept }
    {
        let ControlSeat { seat } = other;
        let words = &self.table.shared;
        words.join_seat::<Together>(&mut into.seat, seat);
        words.load::<Learn>(&mut into.seat, BEST);
    }
}

// The word of a stop.
fn word_of(stop: Stop) -> u64
    requires { IsTellable stop }
    ensures { result ≡ stop_word stop }
{
    match stop {
        Stop::NodeLimit { asked } => 4 * asked + 1,
        Stop::Full { place } => 4 * place as u64 + 2,
        Stop::NoMemory => 3,
    }
}

// The stop of a word.
fn stop_of(word: u64) -> Option<Stop>
    requires { word % 4 ≡ 2 → word / 4 < 2 ^ 32 }
    ensures { result ≡ stop_in word }
{
    if word == 0 {
        return None;
    }
    if word % 4 == 1 {
        return Some(Stop::NodeLimit { asked: word / 4 });
    }
    if word % 4 == 2 {
        return Some(Stop::Full {
            place: (word / 4) as u32,
        });
    }
    Some(Stop::NoMemory)
}
