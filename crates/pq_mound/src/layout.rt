//! Where the mound's words lie in its table: before the nodes the cells' lock with what it guards, behind them the
//! cells.
ghost use Rattle.std.specs.Prelude.{◌≡◌, ◌+◌, ◌*◌, ◌<◌, ◌≤◌};
ghost use Rattle.pq_model.specs.Limits.{max_capacity};
ghost use Rattle.pq_mound.specs.Layout as layout;

/// The lock over the free cells.
pub(crate) const CELLS_LOCK: u32 = 24;

/// Which cell is the first free one.
pub(crate) const FREE: u32 = 25;

/// How many cells are free.
pub(crate) const COUNT: u32 = 26;

/// The word that leads on from a cell, where the words of the cells begin at this base.
pub(crate) fn next_word(base: u32, cell: u32) -> u32
    requires { (base ≤ layout.max_base) × (cell < max_capacity) }
    ensures { result ≡ base + 1 + 2 * cell }
{
    base + 1 + 2 * cell
}

/// The entry word of a cell, where the words of the cells begin at this base.
pub(crate) fn entry_word(base: u32, cell: u32) -> u32
    requires { (base ≤ layout.max_base) × (cell < max_capacity) }
    ensures { result ≡ base + 2 * cell }
{
    base + 2 * cell
}
