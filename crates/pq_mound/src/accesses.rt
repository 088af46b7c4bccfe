//! The loads and stores of the mound, each one step under locks that the seat holds.
ghost use Rattle.std.specs.Prelude.{◌≡◌, ◌<◌, ◌≤◌, ℕ, List, ◌∷◌, Some, None, Contains};
ghost use Rattle.pq_words.specs.Entries.{raw_of};
ghost use Rattle.pq_seats.specs.Passes.{limits_of, view_of, Belongs, IsSamePass};
ghost use Rattle.pq_seats.specs.Views.{with_post};
ghost use Rattle.pq_mound.specs.declared.views.OwnCell.{OwnCell};
ghost use Rattle.pq_mound.specs.Chains.{first_or};
ghost use Rattle.pq_mound.specs.Layout as layout;
ghost use Rattle.pq_mound.specs.Steps.{counting, taking, giving, keeping};
ghost use Rattle.pq_mound.specs.Tables.{IsMoundTable};

use crate::layout::{COUNT, FREE, entry_word, next_word};
use crate::plays::{
    Give, LookAtCount, LookAtFree, LookAtNext, StoreCount, StoreEntry, StoreNext, TakeOff,
};
use crate::rule::{MoundTable, TablePass};
use pq_words::Entry;

/// How many cells are free, by a seat that holds the cells' lock.
pub(crate) fn look_at_count(table: &MoundTable, pass: &mut TablePass) -> u64
    requires table { IsMoundTable table.now }
    requires own { Belongs table.now pass.old }
    requires held { Contains (view_of pass.old).post.locks layout.cells_lock }
    ensures own { Belongs table.now pass.new }
    ensures same { IsSamePass pass.old pass.new }
    ensures view { view_of pass.new ≡ view_of pass.old }
    ensures count { result ≡ (view_of pass.old).post.own.count }
{
    table
        .table
        .shared
        .load::<LookAtCount>(&mut pass.seat, COUNT as usize)
}

/// The word that names the first free cell, by a seat that holds the cells' lock.
pub(crate) fn look_at_free(table: &MoundTable, pass: &mut TablePass) -> u64
    requires table { IsMoundTable table.now }
    requires own { Belongs table.now pass.old }
    requires held { Contains (view_of pass.old).post.locks layout.cells_lock }
    ensures own { Belongs table.now pass.new }
    ensures same { IsSamePass pass.old pass.new }
    ensures view { view_of pass.new ≡ view_of pass.old }
    ensures first { result ≡ first_or (view_of pass.old).post.own.free 0 }
    ensures small { result ≤ (limits_of table.now).capacity }
{
    table
        .table
        .shared
        .load::<LookAtFree>(&mut pass.seat, FREE as usize)
}

/// Stores how many cells are free.
pub(crate) fn store_count(table: &MoundTable, pass: &mut TablePass, count: u32)
    requires table { IsMoundTable table.now }
    requires own { Belongs table.now pass.old }
    requires held { Contains (view_of pass.old).post.locks layout.cells_lock }
    ensures own { Belongs table.now pass.new }
    ensures same { IsSamePass pass.old pass.new }
    ensures view { view_of pass.new ≡ with_post (view_of pass.old) (counting (view_of pass.old).post count) }
{
    table
        .table
        .shared
        .store::<StoreCount>(&mut pass.seat, COUNT as usize, u64::from(count));
}

/// The word that leads on from the first free cell, by a seat that holds the cells' lock.
pub(crate) fn look_at_next(table: &MoundTable, pass: &mut TablePass, base: u32, cell: u32) -> u64
    requires table { IsMoundTable table.now }
    requires own { Belongs table.now pass.old }
    requires held { Contains (view_of pass.old).post.locks layout.cells_lock }
    requires base { (base ≡ layout.cell_base (limits_of table.now).capacity) × (base ≤ layout.max_base) }
    requires first { (rest : List ℕ) × ((view_of pass.old).post.own.free ≡ cell ∷ rest) }
    requires cell { cell < (limits_of table.now).capacity }
    ensures own { Belongs table.now pass.new }
    ensures same { IsSamePass pass.old pass.new }
    ensures view { view_of pass.new ≡ view_of pass.old }
    ensures next { (rest : List ℕ) → (view_of pass.old).post.own.free ≡ cell ∷ rest → result ≡ first_or rest 0 }
{
    table
        .table
        .shared
        .load::<LookAtNext>(&mut pass.seat, next_word(base, cell) as usize)
}

/// Takes the first free cell off, by the word that leads on from it. The seat holds the cell then.
pub(crate) fn take_off(table: &MoundTable, pass: &mut TablePass, cell: u32, next: u64)
    requires table { IsMoundTable table.now }
    requires own { Belongs table.now pass.old }
    requires held { Contains (view_of pass.old).post.locks layout.cells_lock }
    requires bare { (view_of pass.old).post.own.held ≡ None }
    requires first { (rest : List ℕ) × ((view_of pass.old).post.own.free ≡ cell ∷ rest) × (next ≡ first_or rest 0) }
    ensures own { Belongs table.now pass.new }
    ensures same { IsSamePass pass.old pass.new }
    ensures view { (rest : List ℕ) → (view_of pass.old).post.own.free ≡ cell ∷ rest → (entry : ℕ) ×
        (view_of pass.new ≡ with_post (view_of pass.old) (taking (view_of pass.old).post cell rest entry next)) }
{
    table
        .table
        .shared
        .store::<TakeOff>(&mut pass.seat, FREE as usize, next);
}

/// Gives the cell that the seat holds back, which leads to the first of the free ones. It is the first then.
pub(crate) fn give(table: &MoundTable, pass: &mut TablePass, cell: u32)
    requires table { IsMoundTable table.now }
    requires own { Belongs table.now pass.old }
    requires held { Contains (view_of pass.old).post.locks layout.cells_lock }
    requires holds { (o : OwnCell) × ((view_of pass.old).post.own.held ≡ Some o) × (o.number ≡ cell) ×
        (o.next ≡ first_or (view_of pass.old).post.own.free 0) }
    requires cell { cell < (limits_of table.now).capacity }
    ensures own { Belongs table.now pass.new }
    ensures same { IsSamePass pass.old pass.new }
    ensures view { view_of pass.new ≡ with_post (view_of pass.old) (giving (view_of pass.old).post cell) }
{
    table
        .table
        .shared
        .store::<Give>(&mut pass.seat, FREE as usize, u64::from(cell) + 1);
}

/// Stores which cell the one that the seat holds leads to: the word that names it, or 0.
pub(crate) fn store_next(table: &MoundTable, pass: &mut TablePass, base: u32, cell: u32, next: u64)
    requires table { IsMoundTable table.now }
    requires own { Belongs table.now pass.old }
    requires holds { (o : OwnCell) × ((view_of pass.old).post.own.held ≡ Some o) × (o.number ≡ cell) }
    requires base { (base ≡ layout.cell_base (limits_of table.now).capacity) × (base ≤ layout.max_base) }
    requires cell { cell < (limits_of table.now).capacity }
    ensures own { Belongs table.now pass.new }
    ensures same { IsSamePass pass.old pass.new }
    ensures view { (o : OwnCell) → (view_of pass.old).post.own.held ≡ Some o → view_of pass.new ≡
        with_post (view_of pass.old) (keeping (view_of pass.old).post o.number o.entry next) }
{
    table
        .table
        .shared
        .store::<StoreNext>(&mut pass.seat, next_word(base, cell) as usize, next);
}

/// Writes an entry into the cell that the seat holds.
pub(crate) fn store_entry(
    table: &MoundTable,
    pass: &mut TablePass,
    base: u32,
    cell: u32,
    entry: Entry,
)
    requires table { IsMoundTable table.now }
    requires own { Belongs table.now pass.old }
    requires holds { (o : OwnCell) × ((view_of pass.old).post.own.held ≡ Some o) × (o.number ≡ cell) }
    requires base { (base ≡ layout.cell_base (limits_of table.now).capacity) × (base ≤ layout.max_base) }
    requires cell { cell < (limits_of table.now).capacity }
    ensures own { Belongs table.now pass.new }
    ensures same { IsSamePass pass.old pass.new }
    ensures view { (o : OwnCell) → (view_of pass.old).post.own.held ≡ Some o → view_of pass.new ≡
        with_post (view_of pass.old) (keeping (view_of pass.old).post o.number (raw_of entry) o.next) }
{
    table.table.shared.store::<StoreEntry>(
        &mut pass.seat,
        entry_word(base, cell) as usize,
        entry.raw(),
    );
}
