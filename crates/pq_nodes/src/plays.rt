//! What the steps on nodes tell their callers.
ghost use Rattle.pq_nodes.specs.Steps.{sees_word, stores_word, raises_second, raises_third};

use crate::NodeRule;
use atomic_table::Play;
use pq_seats::View;
use std::marker::PhantomData;

/// A load of a node's word, under its lock.
pub struct Look<R> {
    rule: PhantomData<R>,
}

impl<R: NodeRule> Play<(), View<R::Own>> for Look<R> {
    ghost then = { sees_word R.nodes };
}

/// A store of a node's word, under its lock. The node counts as it did.
pub struct Store<R> {
    rule: PhantomData<R>,
}

impl<R: NodeRule> Play<(), View<R::Own>> for Store<R> {
    ghost then = { stores_word R.nodes };
}

/// The store of the second guard's word in the first one's node.
pub struct RaiseSecond<R> {
    rule: PhantomData<R>,
}

impl<R: NodeRule> Play<(), View<R::Own>> for RaiseSecond<R> {
    ghost then = { raises_second R.nodes };
}

/// The store of the third guard's word in the first one's node.
pub struct RaiseThird<R> {
    rule: PhantomData<R>,
}

impl<R: NodeRule> Play<(), View<R::Own>> for RaiseThird<R> {
    ghost then = { raises_third R.nodes };
}
