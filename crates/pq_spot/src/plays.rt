//! The steps at the spot and on the history word. All but a glance are made under the lock.
ghost use Rattle.pq_spot.specs.Spot.{looks, offers, puts, refuses, sees, accepts, removes};

use crate::SpotPart;
use atomic_table::Play;
use pq_seats::View;

/// A load of the spot.
pub(crate) struct Look;

impl Play<(), View<SpotPart>> for Look {
    ghost then = { looks };
}

/// The store that offers the entry.
pub(crate) struct Offer;

impl Play<(), View<SpotPart>> for Offer {
    ghost then = { λ st m found m'. offers st m found m' };
}

/// A store of what the spot counts as already.
pub(crate) struct Put;

impl Play<(), View<SpotPart>> for Put {
    ghost then = { puts };
}

/// The store of 0 that clears another seat's offer, and sends its insert back.
pub(crate) struct Refuse;

impl Play<(), View<SpotPart>> for Refuse {
    ghost then = { λ st m found m'. refuses st m found m' };
}

/// A load of the history word, by any seat.
pub(crate) struct Glance;

impl Play<(), View<SpotPart>> for Glance {
    ghost then = { λ st m found m'. sees st m found m' };
}

/// The addition that places the insert which another seat offers.
pub(crate) struct Accept;

impl Play<(), View<SpotPart>> for Accept {
    ghost then = { λ st m found m'. accepts st m found m' };
}

/// The addition that places a removal, of what is in the queue at that step.
pub(crate) struct Grab;

impl Play<(), View<SpotPart>> for Grab {
    ghost then = { λ st m found m'. removes st m found m' };
}
