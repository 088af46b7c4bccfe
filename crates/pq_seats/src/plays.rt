//! What the steps of the base tell their callers.
ghost use Rattle.pq_model.specs.declared.marks.Act.{Act};
ghost use Rattle.pq_model.specs.declared.marks.Act.TheVariants.{Remove};
ghost use Rattle.pq_seats.specs.Steps.{measures, learns, tries, frees, draws, leaves, takes};
ghost use Rattle.pq_seats.specs.Seats.{deal_left, deal_right, note_of, joined_view, spent};

use crate::{SeatRule, View};
use atomic_table::{Join, Play, Split};
use std::marker::{Brand, PhantomData};

/// The act of a draw, for the proof alone. A call at `Brand` picks it.
pub trait Intent {
    ghost act: { Act };
}

impl Intent for Brand {
    ghost act = { Remove };
}

/// A load of the history word, to which the front rises.
pub struct Measure<R> {
    rule: PhantomData<R>,
}

impl<R: SeatRule> Play<(), View<R::Own>> for Measure<R> {
    ghost then = { measures R.rule };
}

/// A load at which the seat learns of a legal history, and nothing changes.
pub struct Learn<R> {
    rule: PhantomData<R>,
}

impl<R: SeatRule> Play<(), View<R::Own>> for Learn<R> {
    ghost then = { learns R.rule };
}

/// An exchange of a lock word from 0.
pub struct Try<R> {
    rule: PhantomData<R>,
}

impl<R: SeatRule> Play<(), View<R::Own>> for Try<R> {
    ghost then = { tries R.rule };
}

/// A store of 0 to a lock word that the seat holds.
pub struct Free<R> {
    rule: PhantomData<R>,
}

impl<R: SeatRule> Play<(), View<R::Own>> for Free<R> {
    ghost then = { frees R.rule };
}

/// An addition to the history word.
pub struct Draw<R, I> {
    rule: PhantomData<(R, I)>,
}

impl<R: SeatRule, I: Intent> Play<(), View<R::Own>> for Draw<R, I> {
    ghost then = { λ st m found m'. draws R.rule st m found m' I.act };
}

/// A store of a letter that the seat owes.
pub struct Leave<R> {
    rule: PhantomData<R>,
}

impl<R: SeatRule> Play<(), View<R::Own>> for Leave<R> {
    ghost then = { leaves R.rule };
}

/// A swap of the seat's own letter word to 0.
pub struct Take<R> {
    rule: PhantomData<R>,
}

impl<R: SeatRule> Play<(), View<R::Own>> for Take<R> {
    ghost then = { takes R.rule };
}

/// The first lane of the dealer goes to a new pass.
pub struct Deal<R> {
    rule: PhantomData<R>,
}

impl<R: SeatRule> Split<View<R::Own>> for Deal<R> {
    ghost left = { deal_left };

    ghost right = { deal_right R.rule };
}

/// A note with the front of a seat, which stays as it is.
pub struct Note<R> {
    rule: PhantomData<R>,
}

impl<R: SeatRule> Split<View<R::Own>> for Note<R> {
    ghost left = { λ v. v };

    ghost right = { note_of R.rule };
}

/// A seat takes in another, or a note.
pub struct Meld<R> {
    rule: PhantomData<R>,
}

impl<R: SeatRule> Join<View<R::Own>> for Meld<R> {
    ghost both = { joined_view };

    ghost spent = { spent R.rule };
}
