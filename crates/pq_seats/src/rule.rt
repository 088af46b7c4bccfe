//! What a queue's rule adds, and the rule of the whole table.
ghost use Rattle.pq_seats.specs.Rules.{Rule, Lawful};

use crate::{Limits, View};
use atomic_table::TableRule;
use std::marker::PhantomData;

/// The queue's part of the rule of its table.
pub trait SeatRule {
    /// What a view holds of the queue's own.
    type Own;

    /// Which words are locks, what ties words, posts and the multiset together, and what each step does to the
    /// queue's own part.
    ghost rule: { Rule Self.Own };

    /// What the queue shows of it.
    ghost lawful: { Lawful rule };
}

/// The rule of a whole table whose queue adds `R`.
pub struct Ruled<R> {
    rule: PhantomData<R>,
}

impl<R: SeatRule> TableRule<(), View<R::Own>, Limits> for Ruled<R> {
    ghost use Rattle.pq_seats.specs.Rules.{Holds};
    ghost use Rattle.pq_seats.specs.Seats.{dealer};

    ghost holds = { Holds R.rule };

    ghost first = { dealer R.rule };
}
