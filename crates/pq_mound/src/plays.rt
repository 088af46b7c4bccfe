//! The mound's own steps on its table.
ghost use Rattle.pq_mound.specs.Steps.{looks_at_count, looks_at_free, stores_count};
ghost use Rattle.pq_mound.specs.Steps.{looks_at_next, takes_off, gives, stores_next, stores_entry};

use crate::MoundPart;
use atomic_table::Play;
use pq_seats::View;

/// A load of the count of the free cells, under their lock.
pub(crate) struct LookAtCount;

impl Play<(), View<MoundPart>> for LookAtCount {
    ghost then = { looks_at_count };
}

/// A load of the word that names the first free cell, under their lock.
pub(crate) struct LookAtFree;

impl Play<(), View<MoundPart>> for LookAtFree {
    ghost then = { looks_at_free };
}

/// A store of the count, under their lock.
pub(crate) struct StoreCount;

impl Play<(), View<MoundPart>> for StoreCount {
    ghost then = { stores_count };
}

/// A load of the word that leads from the first free cell to the next, under their lock.
pub(crate) struct LookAtNext;

impl Play<(), View<MoundPart>> for LookAtNext {
    ghost then = { looks_at_next };
}

/// A store of the word that names the first free cell, by which that cell is taken off.
pub(crate) struct TakeOff;

impl Play<(), View<MoundPart>> for TakeOff {
    ghost then = { takes_off };
}

/// A store of that word, by which the cell that the seat holds is the first free one.
pub(crate) struct Give;

impl Play<(), View<MoundPart>> for Give {
    ghost then = { gives };
}

/// A store to the word that leads on from the cell that the seat holds.
pub(crate) struct StoreNext;

impl Play<(), View<MoundPart>> for StoreNext {
    ghost then = { stores_next };
}

/// A store to the entry word of the cell that the seat holds.
pub(crate) struct StoreEntry;

impl Play<(), View<MoundPart>> for StoreEntry {
    ghost then = { stores_entry };
}
