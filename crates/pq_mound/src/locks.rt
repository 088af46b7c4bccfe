//! Taking and freeing the lock over the free cells.
ghost use Rattle.std.specs.Prelude.{◌≡◌, length, Contains};
ghost use Rattle.pq_seats.specs.Passes.{limits_of, view_of, Belongs, IsSamePass};
ghost use Rattle.pq_nodes.specs.Passes.{ComesTo};
ghost use Rattle.pq_mound.specs.Layout as layout;
ghost use Rattle.pq_mound.specs.Passes.{TookCells, without_cells};
ghost use Rattle.pq_mound.specs.Tables.{IsMoundTable};

use crate::layout::CELLS_LOCK;
use crate::rule::{MoundTable, TablePass};
use std::sync::Wait;

/// Takes the cells' lock. The view names the free cells then.
pub(crate) fn take_cells<W: Wait>(table: &MoundTable, rt: &W, pass: &mut TablePass)
    requires table { IsMoundTable table.now }
    requires own { Belongs table.now pass.old }
    ensures own { Belongs table.now pass.new }
    ensures same { IsSamePass pass.old pass.new }
    ensures took { TookCells (view_of pass.old) (view_of pass.new) (limits_of table.now).capacity }
{
    table.lock(rt, pass, CELLS_LOCK);
}

/// Frees the cells' lock, where the count of the free cells is stored as they are.
pub(crate) fn free_cells(table: &MoundTable, pass: &mut TablePass)
    requires table { IsMoundTable table.now }
    requires own { Belongs table.now pass.old }
    requires held { Contains (view_of pass.old).post.locks layout.cells_lock }
    requires counted { (view_of pass.old).post.own.count ≡ length (view_of pass.old).post.own.free }
    ensures own { Belongs table.now pass.new }
    ensures same { IsSamePass pass.old pass.new }
    ensures freed { ComesTo (view_of pass.old) (view_of pass.new) (without_cells (view_of pass.old).post) }
{
    table.unlock(pass, CELLS_LOCK);
}
