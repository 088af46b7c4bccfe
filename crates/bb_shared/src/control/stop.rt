//! What ends a search early.

use pq_io::NoMemory;

/// What ends a search early.
#[derive(Clone, Copy, Debug, PartialEq, Eq)]
pub enum Stop {
    /// More nodes were asked for than the limit is.
    NodeLimit { asked: u64 },
    /// An insert found the queue full, at this place.
    Full { place: u32 },
    /// There was no memory.
    NoMemory,
}

impl From<NoMemory> for Stop {
    ghost use Rattle.std.specs.Prelude.{◌≡◌};
    ghost use Rattle.bb_shared.specs.declared.control.stop.Stop.TheVariants as stops;

    ghost from_gives = { λ _ stop. stop ≡ stops.NoMemory };

    fn from(_error: NoMemory) -> Stop {
        Stop::NoMemory
    }
}
