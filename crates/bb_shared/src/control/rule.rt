//! The rule of a control's table, and what each step tells.
ghost use Rattle.bb_shared.specs.Controls.{controls_joined};
ghost use Rattle.bb_shared.specs.ControlRules.{IsControl, teller, gave_one, got_one, spent_told};
ghost use Rattle.bb_shared.specs.ControlRules.{opened_more, closed_one, saw_open, saw_best, told_cost};
ghost use Rattle.bb_shared.specs.ControlRules.{set_stop, saw_stop, learned};

use super::told::Told;
use atomic_table::{Join, Play, Seat, Split, Table, TableRule};
use std::alloc::Global;

/// The open word: what was opened less what was closed, modulo 2^64. The words of a control stand 128 bytes apart, so
/// that they share no cache line.
pub const OPEN: usize = 0;

/// The best word: 0 where no cost was told yet, else the cost limit less the least cost that was told.
pub const BEST: usize = 16;

/// The stop word: 0 where no stop was set yet, else the first stop that was set.
pub const STOP: usize = 32;

/// How many words a control has.
pub const WORDS: usize = 33;

/// The rule of a control's table. Its key is the number of seats.
pub struct ControlRule;

impl TableRule<(), Told, u32> for ControlRule {
    ghost holds = { λ seats s. IsControl seats s };

    ghost first = { λ seats. teller seats seats };
}

/// The table of a control. It has words alone.
pub type ControlTable = Table<(), Told, u32, ControlRule, Global>;

/// A seat of that table.
pub type ControlHand = Seat<(), Told>;

/// One part goes to a new seat.
pub struct Deal;

impl Split<Told> for Deal {
    ghost left = { gave_one };

    ghost right = { got_one };
}

/// A seat is joined into another, which has then told, read and set what both did.
pub struct Together;

impl Join<Told> for Together {
    ghost both = { controls_joined };

    ghost spent = { spent_told };
}

/// A step that adds to the open word.
pub struct OpenMore;

impl Play<(), Told> for OpenMore {
    ghost then = { λ st m found w. opened_more st m found w };
}

/// A step that takes one away from the open word.
pub struct CloseOne;

impl Play<(), Told> for CloseOne {
    ghost then = { λ st m found w. closed_one st m found w };
}

/// A load of the open word.
pub struct SeeOpen;

impl Play<(), Told> for SeeOpen {
    ghost then = { λ st m found w. saw_open st m found w };
}

/// A load of the best word.
pub struct SeeBest;

impl Play<(), Told> for SeeBest {
    ghost then = { λ st m found w. saw_best st m found w };
}

/// A step that tells a cost at the best word.
pub struct TellCost;

impl Play<(), Told> for TellCost {
    ghost then = { λ st m found w. told_cost st m found w };
}

/// A step that sets the stop word, where no stop was set before.
pub struct SetStop;

impl Play<(), Told> for SetStop {
    ghost then = { λ st m found w. set_stop st m found w };
}

/// A load of the stop word.
pub struct SeeStop;

impl Play<(), Told> for SeeStop {
    ghost then = { λ st m found w. saw_stop st m found w };
}

/// A load at which a seat learns what the rule says of what it keeps.
pub struct Learn;

impl Play<(), Told> for Learn {
    ghost then = { λ st m found w. learned st m found w };
}
