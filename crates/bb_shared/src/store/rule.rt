//! The rule of a store's table, and what each step tells.
ghost use Rattle.std.specs.Prelude.{ℕ};
ghost use Rattle.bb_shared.specs.StoreRules.{IsStore, giver, given_one, one_part, views_joined, spent_view};
ghost use Rattle.bb_shared.specs.StoreRules.{drew, began_put, ended_put, tried_take, ended_take, learned};

use super::stored::StoreView;
use atomic_table::{Join, Play, Seat, Split, Table, TableRule};
use std::alloc::Global;
use std::marker::{Brand, PhantomData};

/// The word of a number that has no node yet.
pub const NONE: u64 = 0;

/// The word of a number whose node is being put.
pub const PUTTING: u64 = 1;

/// The word of a number whose node was put, and is there to take.
pub const FULL: u64 = 2;

/// The word of a number whose node is being taken.
pub const TAKING: u64 = 3;

/// The word of a number whose node was taken.
pub const DONE: u64 = 4;

/// The rule of a store's table. Its key is the number of seats.
pub struct StoreRule;

impl<N> TableRule<Option<N>, StoreView<N>, u32> for StoreRule {
    ghost holds = { IsStore };

    ghost first = { λ seats. giver seats seats };
}

/// The table of a store: a word that counts the numbers that were drawn, and a word and a slot for each number.
pub type StoreTable<N> = Table<Option<N>, StoreView<N>, u32, StoreRule, Global>;

/// A seat of that table.
pub type StoreHand<N> = Seat<Option<N>, StoreView<N>>;

/// One part goes to a new seat.
pub struct Deal;

impl<N> Split<StoreView<N>> for Deal {
    ghost left = { given_one };

    ghost right = { one_part };
}

/// A seat is joined into another, which keeps then what both kept.
pub struct Together;

impl<N> Join<StoreView<N>> for Together {
    ghost both = { views_joined };

    ghost spent = { spent_view };
}

/// The limit of a draw. Whoever makes the step picks it.
pub trait Limit {
    ghost limit: { ℕ };
}

impl Limit for Brand {
    ghost limit = { 0 };
}

/// A step that draws numbers, under this limit.
pub struct DrawNumbers<L> {
    of: PhantomData<L>,
}

impl<N, L: Limit> Play<Option<N>, StoreView<N>> for DrawNumbers<L> {
    ghost then = { λ st m found w. drew st m found w L.limit };
}

/// A step that begins a put: the slot of the number is the seat's from then on.
pub struct BeginPut;

impl<N> Play<Option<N>, StoreView<N>> for BeginPut {
    ghost then = { began_put };
}

/// A step that ends a put: the slot is given back with the node.
pub struct EndPut;

impl<N> Play<Option<N>, StoreView<N>> for EndPut {
    ghost then = { ended_put };
}

/// A step that begins a take where the number's node is there, and else does nothing.
pub struct TryTake;

impl<N> Play<Option<N>, StoreView<N>> for TryTake {
    ghost then = { tried_take };
}

/// A step that ends a take: the slot is given back.
pub struct EndTake;

impl<N> Play<Option<N>, StoreView<N>> for EndTake {
    ghost then = { ended_take };
}

/// A load at which a seat learns what the rule says of what it keeps.
pub struct Learn;

impl<N> Play<Option<N>, StoreView<N>> for Learn {
    ghost then = { learned };
}
