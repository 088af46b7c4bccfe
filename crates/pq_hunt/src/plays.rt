//! The heap's own steps on its table.
ghost use Rattle.pq_hunt.specs.Steps.{looks_at_size, stores_size, leafs, climbs};
ghost use Rattle.pq_hunt.specs.Steps.{fills};
ghost use Rattle.pq_hunt.specs.Steps.{finds, finds_at_root};

use crate::HuntPart;
use atomic_table::Play;
use pq_seats::View;

/// A load of the size, under its lock.
pub(crate) struct LookAtSize;

impl Play<(), View<HuntPart>> for LookAtSize {
    ghost then = { looks_at_size };
}

/// A store of the size, under its lock.
pub(crate) struct StoreSize;

impl Play<(), View<HuntPart>> for StoreSize {
    ghost then = { stores_size };
}

/// The store that makes a new leaf Busy.
pub(crate) struct Leaf;

impl Play<(), View<HuntPart>> for Leaf {
    ghost then = { leafs };
}

/// The store of an entry that climbs into the parent's word.
pub(crate) struct Climb;

impl Play<(), View<HuntPart>> for Climb {
    ghost then = { climbs };
}

/// The store of the entry in hand into a hole.
pub(crate) struct Fill;

impl Play<(), View<HuntPart>> for Fill {
    ghost then = { fills };
}

/// An owner's load of the word of the node where it looks for its entry.
pub(crate) struct Find;

impl Play<(), View<HuntPart>> for Find {
    ghost then = { finds };
}

/// The same of the root.
pub(crate) struct FindAtRoot;

impl Play<(), View<HuntPart>> for FindAtRoot {
    ghost then = { finds_at_root };
}
