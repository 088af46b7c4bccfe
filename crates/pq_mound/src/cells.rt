//! The free cells: taking one off, under the cells' lock, and giving one back.
ghost use Rattle.std.specs.Prelude.{◌≡◌, ◌<◌, ◌≤◌, ℕ, List, [], ◌∷◌, Some, None, length, Contains};
ghost use Rattle.pq_seats.specs.Passes.{limits_of, view_of, Belongs, IsSamePass};
ghost use Rattle.pq_seats.specs.Views.{empty_post, with_post};
ghost use Rattle.pq_nodes.specs.Passes.{ComesTo};
ghost use Rattle.pq_mound.specs.declared.views.OwnCell.{OwnCell};
ghost use Rattle.pq_mound.specs.Layout as layout;
ghost use Rattle.pq_mound.specs.Passes.{with_cell};
ghost use Rattle.pq_mound.specs.Steps.{counting, taking};
ghost use Rattle.pq_mound.specs.Tables.{IsMoundTable};
ghost use Rattle.pq_mound.specs.Views.{idle};

use crate::accesses::{
    give, look_at_count, look_at_free, look_at_next, store_count, store_next, take_off,
};
use crate::locks::{free_cells, take_cells};
use crate::rule::{MoundTable, TablePass};
use std::sync::Wait;

/// Takes the first free cell, or none where none is free, by a seat that holds the cells' lock and no cell. The words
/// of the cells begin at this base.
pub(crate) fn pick(table: &MoundTable, pass: &mut TablePass, base: u32) -> Option<u32>
    requires table { IsMoundTable table.now }
    requires own { Belongs table.now pass.old }
    requires held { Contains (view_of pass.old).post.locks layout.cells_lock }
    requires bare { (view_of pass.old).post.own.held ≡ None }
    requires counted { (view_of pass.old).post.own.count ≡ length (view_of pass.old).post.own.free }
    requires within { length (view_of pass.old).post.own.free ≤ (limits_of table.now).capacity }
    requires base { (base ≡ layout.cell_base (limits_of table.now).capacity) × (base ≤ layout.max_base) }
    ensures own { Belongs table.now pass.new }
    ensures same { IsSamePass pass.old pass.new }
    ensures full { result ≡ None → ((view_of pass.old).post.own.free ≡ []) × (view_of pass.new ≡ view_of pass.old) }
    ensures picked { (cell : ℕ) → result ≡ Some cell → (rest : List ℕ) × (entry : ℕ) × (next : ℕ) ×
        ((view_of pass.old).post.own.free ≡ cell ∷ rest) × (view_of pass.new ≡ with_post (view_of pass.old)
        (counting (taking (view_of pass.old).post cell rest entry next) (length rest))) }
{
    let count = look_at_count(table, pass);
    if count == 0 {
        return None;
    }
    let cell = (look_at_free(table, pass) - 1) as u32;
    let next = look_at_next(table, pass, base, cell);
    take_off(table, pass, cell, next);
    store_count(table, pass, (count - 1) as u32);
    Some(cell)
}

/// Gives the cell that the seat holds back. The seat holds nothing then. The words of the cells begin at this base.
pub(crate) fn give_back<W: Wait>(
    table: &MoundTable,
    rt: &W,
    pass: &mut TablePass,
    base: u32,
    cell: u32,
)
    requires table { IsMoundTable table.now }
    requires own { Belongs table.now pass.old }
    requires holds { (o : OwnCell) × ((view_of pass.old).post ≡ with_cell pass.old.number o) × (o.number ≡ cell) }
    requires base { (base ≡ layout.cell_base (limits_of table.now).capacity) × (base ≤ layout.max_base) }
    requires cell { cell < (limits_of table.now).capacity }
    ensures own { Belongs table.now pass.new }
    ensures same { IsSamePass pass.old pass.new }
    ensures rests { ComesTo (view_of pass.old) (view_of pass.new) (empty_post idle pass.old.number) }
{
    take_cells(table, rt, pass);
    let count = look_at_count(table, pass);
    let first = look_at_free(table, pass);
    store_next(table, pass, base, cell, first);
    give(table, pass, cell);
    store_count(table, pass, (count + 1) as u32);
    free_cells(table, pass);
}
