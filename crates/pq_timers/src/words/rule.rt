//! The rule of a timers' table, and what each step tells.
ghost use Rattle.std.specs.Prelude.{ℕ};
ghost use Rattle.pq_timers.specs.WordRules.{IsTimers, first_giver, dealt_one, one_part, views_joined, spent_view};
ghost use Rattle.pq_timers.specs.WordRules.{drew, stored_moment, set_armed, saw_moment, tried_cancel, tried_refuse};
ghost use Rattle.pq_timers.specs.WordRules.{saw_state, tried_fire, learned};

use super::kept::{TimerLimits, TimerView};
use atomic_table::{Join, Play, Seat, Split, Table, TableRule};
use std::alloc::Global;
use std::marker::{Brand, PhantomData};

/// The state of a timer that is not armed yet.
pub const NONE: u64 = 0;

/// The state of a timer that is armed.
pub const ARMED: u64 = 1;

/// The state of a timer that was cancelled.
pub const CANCELLED: u64 = 2;

/// The state of a timer that was fired.
pub const FIRED: u64 = 3;

/// The state of a timer whose entry the queue had no room for.
pub const REFUSED: u64 = 4;

/// The rule of a timers' table. Its key is the limits that it was opened for.
pub struct WordRule;

impl TableRule<(), TimerView, TimerLimits> for WordRule {
    ghost holds = { λ limits s. IsTimers limits s };

    ghost first = { first_giver };
}

/// The table of timers. It has words alone.
pub type Words = Table<(), TimerView, TimerLimits, WordRule, Global>;

/// A seat of that table.
pub type Hand = Seat<(), TimerView>;

/// One part goes to a new seat.
pub struct Deal;

impl Split<TimerView> for Deal {
    ghost left = { dealt_one };

    ghost right = { one_part };
}

/// A seat is joined into another, which keeps then what both kept.
pub struct Together;

impl Join<TimerView> for Together {
    ghost both = { views_joined };

    ghost spent = { spent_view };
}

/// A moment. Whoever makes the step picks it.
pub trait Moment {
    ghost moment: { ℕ };
}

impl Moment for Brand {
    ghost moment = { 0 };
}

/// A step that draws a number, for a timer of this moment.
pub struct DrawNumber<L> {
    of: PhantomData<L>,
}

impl<L: Moment> Play<(), TimerView> for DrawNumber<L> {
    ghost then = { λ st m found w. drew st m found w L.moment };
}

/// A step that stores the moment of the seat's own timer.
pub struct StoreMoment;

impl Play<(), TimerView> for StoreMoment {
    ghost then = { λ st m found w. stored_moment st m found w };
}

/// A step that stores the state of the seat's own timer.
pub struct SetArmed;

impl Play<(), TimerView> for SetArmed {
    ghost then = { λ st m found w. set_armed st m found w };
}

/// A load of a moment word.
pub struct SeeMoment;

impl Play<(), TimerView> for SeeMoment {
    ghost then = { λ st m found w. saw_moment st m found w };
}

/// A step that cancels a timer where it is armed.
pub struct TryCancel;

impl Play<(), TimerView> for TryCancel {
    ghost then = { λ st m found w. tried_cancel st m found w };
}

/// A step that refuses a timer of the seat's own where it is armed.
pub struct TryRefuse;

impl Play<(), TimerView> for TryRefuse {
    ghost then = { λ st m found w. tried_refuse st m found w };
}

/// A load of a state word.
pub struct SeeState;

impl Play<(), TimerView> for SeeState {
    ghost then = { λ st m found w. saw_state st m found w };
}

/// A step that fires a timer where it is armed, at this moment.
pub struct TryFire<L> {
    of: PhantomData<L>,
}

impl<L: Moment> Play<(), TimerView> for TryFire<L> {
    ghost then = { λ st m found w. tried_fire st m found w L.moment };
}

/// A load at which a seat learns what the rule says of what it keeps.
pub struct Learn;

impl Play<(), TimerView> for Learn {
    ghost then = { λ st m found w. learned st m found w };
}
