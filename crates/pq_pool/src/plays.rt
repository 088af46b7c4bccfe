//! What the steps of the pool tell their callers.
ghost use Rattle.pq_pool.specs.Steps.{sees_grace, sees_state, sees_pin, stores_grace, stores_state};
ghost use Rattle.pq_pool.specs.Steps.{turns, takes, moves, pins, looks, unpins};

use crate::PoolRule;
use atomic_table::Play;
use pq_seats::View;
use std::marker::PhantomData;

/// A load of a grace bit by the builder.
pub struct LoadGrace<R> {
    rule: PhantomData<R>,
}

impl<R: PoolRule> Play<(), View<R::Own>> for LoadGrace<R> {
    ghost then = { sees_grace R.rule R.pool };
}

/// A load of a state by the builder.
pub struct LoadState<R> {
    rule: PhantomData<R>,
}

impl<R: PoolRule> Play<(), View<R::Own>> for LoadState<R> {
    ghost then = { sees_state R.rule R.pool };
}

/// A load of a pin word by the builder. Where it is 0, the seat's grace bit no more counts.
pub struct LoadPin<R> {
    rule: PhantomData<R>,
}

impl<R: PoolRule> Play<(), View<R::Own>> for LoadPin<R> {
    ghost then = { sees_pin R.rule R.pool };
}

/// A store of a grace bit, which changes nothing that counts.
pub struct StoreGrace<R> {
    rule: PhantomData<R>,
}

impl<R: PoolRule> Play<(), View<R::Own>> for StoreGrace<R> {
    ghost then = { stores_grace R.rule R.pool };
}

/// A store of a state, which changes nothing that counts.
pub struct StoreState<R> {
    rule: PhantomData<R>,
}

impl<R: PoolRule> Play<(), View<R::Own>> for StoreState<R> {
    ghost then = { stores_state R.rule R.pool };
}

/// The store of the first grace bit of a new batch, at which both batches turn.
pub struct TurnGrace<R> {
    rule: PhantomData<R>,
}

impl<R: PoolRule> Play<(), View<R::Own>> for TurnGrace<R> {
    ghost then = { turns R.rule R.pool };
}

/// The store at which a free chunk is taken.
pub struct Begin<R> {
    rule: PhantomData<R>,
}

impl<R: PoolRule> Play<(), View<R::Own>> for Begin<R> {
    ghost then = { takes R.rule R.pool };
}

/// The store at which a chunk becomes live or young.
pub struct Move<R> {
    rule: PhantomData<R>,
}

impl<R: PoolRule> Play<(), View<R::Own>> for Move<R> {
    ghost then = { moves R.rule R.pool };
}

/// The store at which a seat pins itself.
pub struct Pin<R> {
    rule: PhantomData<R>,
}

impl<R: PoolRule> Play<(), View<R::Own>> for Pin<R> {
    ghost then = { pins R.rule R.pool };
}

/// A load under a pin, at which the seat comes to all chunks that are safe for it.
pub struct Look<R> {
    rule: PhantomData<R>,
}

impl<R: PoolRule> Play<(), View<R::Own>> for Look<R> {
    ghost then = { looks R.rule R.pool };
}

/// The store at which a pin ends.
pub struct Unpin<R> {
    rule: PhantomData<R>,
}

impl<R: PoolRule> Play<(), View<R::Own>> for Unpin<R> {
    ghost then = { unpins R.rule R.pool };
}
