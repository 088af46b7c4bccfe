//! The loads and stores of the heap, each one step under locks that the seat holds.
ghost use Rattle.std.specs.Prelude.{◌≡◌, ◌≢◌, ◌<◌, ◌≤◌, ◌+◌, ◌-◌, Contains, Some, length, []};
ghost use Rattle.pq_api.specs.Limits.{call_limit};
ghost use Rattle.pq_words.specs.declared.entries.Entry.{Entry};
ghost use Rattle.pq_seats.specs.Passes.{limits_of, view_of, known, Belongs};
ghost use Rattle.pq_nodes.specs.Passes.{Stays};
ghost use Rattle.pq_seats.specs.Views.{with_post};
ghost use Rattle.pq_seats.specs.Laws.{history_limit};
ghost use Rattle.pq_hunt.specs.declared.nodes.Node.TheVariants.{Busy};
ghost use Rattle.pq_hunt.specs.Guards.{Guard};
ghost use Rattle.pq_hunt.specs.Layout as layout;
ghost use Rattle.pq_hunt.specs.Words.{Means};
ghost use Rattle.pq_nodes.specs.Views.{restored, exchanged, exchanged_third};
ghost use Rattle.pq_nodes.specs.Parts.{guarding};
ghost use Rattle.pq_hunt.specs.NodeParts.{HaveOwnersApart, AreUsed};
ghost use Rattle.pq_hunt.specs.Steps.{busy_number, sizing, leafed, climbed};
ghost use Rattle.pq_hunt.specs.Steps.{looking, missing};
ghost use Rattle.pq_nodes.specs.Parts.{HasGuard};
ghost use Rattle.pq_hunt.specs.Climbing.{CanLeaf, CanClimb, CanFind};
ghost use Rattle.pq_hunt.specs.Sifting.{CanFill};
ghost use Rattle.pq_hunt.specs.HeldPosts.{filled};
ghost use Rattle.pq_hunt.specs.Tables.{IsHeapTable};
ghost use Rattle.pq_hunt.specs.NodeParts.{hunt_nodes};
ghost use Rattle.pq_nodes.specs.Layout as node_layout;

use crate::layout::SIZE;
use crate::plays::{Climb, Fill, Find, FindAtRoot, Leaf, LookAtSize, StoreSize};
use crate::{HuntPass, HuntTable};
use pq_nodes::word_of;

/// The size, by a seat that holds the heap's lock.
pub(crate) fn look_at_size(table: &HuntTable, pass: &mut HuntPass) -> u64
    requires table { IsHeapTable table.now }
    requires own { Belongs table.now pass.old }
    requires held { Contains (view_of pass.old).post.locks layout.heap_lock }
    ensures stays { Stays table.now pass.old pass.new }
    ensures view { view_of pass.new ≡ view_of pass.old }
    ensures size { result ≡ (view_of pass.old).post.own.size_stored }
{
    table
        .table
        .shared
        .load::<LookAtSize>(&mut pass.seat, SIZE as usize)
}

/// Stores the size.
pub(crate) fn store_size(table: &HuntTable, pass: &mut HuntPass, size: u32)
    requires table { IsHeapTable table.now }
    requires own { Belongs table.now pass.old }
    requires held { Contains (view_of pass.old).post.locks layout.heap_lock }
    ensures stays { Stays table.now pass.old pass.new }
    ensures view { view_of pass.new ≡ with_post (view_of pass.old) (sizing (view_of pass.old).post size) }
{
    table
        .table
        .shared
        .store::<StoreSize>(&mut pass.seat, SIZE as usize, u64::from(size));
}

/// Makes the next node Busy with this entry, which the word says.
pub(crate) fn make_busy(table: &HuntTable, pass: &mut HuntPass, node: u32, word: u64)
    requires table { IsHeapTable table.now }
    requires own { Belongs table.now pass.old }
    requires node { (1 ≤ node) × (node ≤ (limits_of table.now).capacity) }
    requires leaf { CanLeaf (view_of pass.old) node }
    requires few { length (known pass.old).calls < call_limit - 1 }
    requires word { (e : Entry) × Means (Busy pass.old.number e) word }
    ensures stays { Stays table.now pass.old pass.new }
    ensures view { (e : Entry) → Means (Busy pass.old.number e) word → view_of pass.new ≡
        with_post (view_of pass.old) (leafed (view_of pass.old).post word e) }
{
    table
        .table
        .shared
        .store::<Leaf>(&mut pass.seat, word_of(node) as usize, word);
}

/// Lets the seat's entry climb to the parent, by the store of its word there.
pub(crate) fn climb_to(table: &HuntTable, pass: &mut HuntPass, parent: u32, word: u64)
    requires table { IsHeapTable table.now }
    requires own { Belongs table.now pass.old }
    requires node { (1 ≤ parent) × (parent ≤ (limits_of table.now).capacity) }
    requires climb { CanClimb (view_of pass.old) parent word }
    ensures stays { Stays table.now pass.old pass.new }
    ensures view { view_of pass.new ≡ with_post (view_of pass.old) (climbed (view_of pass.old).post) }
{
    table
        .table
        .shared
        .store::<Climb>(&mut pass.seat, word_of(parent) as usize, word);
}

/// Fills the hole with the entry in hand.
pub(crate) fn fill(table: &HuntTable, pass: &mut HuntPass, hole: u32, word: u64)
    requires table { IsHeapTable table.now }
    requires own { Belongs table.now pass.old }
    requires node { (1 ≤ hole) × (hole ≤ (limits_of table.now).capacity) }
    requires fill { CanFill (limits_of table.now).capacity (view_of pass.old) hole }
    ensures stays { Stays table.now pass.old pass.new }
    ensures view { view_of pass.new ≡ with_post (view_of pass.old) (filled (view_of pass.old).post word) }
{
    table
        .table
        .shared
        .store::<Fill>(&mut pass.seat, word_of(hole) as usize, word);
}

/// The word of the node where the seat looks for its entry. Where it is not the seat's own Busy word, the seat looks at
/// the parent next.
pub(crate) fn find(table: &HuntTable, pass: &mut HuntPass, node: u32) -> u64
    requires table { IsHeapTable table.now }
    requires own { Belongs table.now pass.old }
    requires node { (1 ≤ node) × (node ≤ (limits_of table.now).capacity) }
    requires find { CanFind (view_of pass.old) node }
    ensures stays { Stays table.now pass.old pass.new }
    ensures word { (g : Guard) → Contains (view_of pass.old).post.own.guards g → g.node ≡ node → result ≡ g.stored }
    ensures found { (e : Entry) → (view_of pass.old).post.flight ≡ Some e →
        (result ≡ busy_number pass.old.number e → view_of pass.new ≡ view_of pass.old) ×
        (result ≢ busy_number pass.old.number e → view_of pass.new ≡
        with_post (view_of pass.old) (looking (view_of pass.old).post)) }
{
    table
        .table
        .shared
        .load::<Find>(&mut pass.seat, word_of(node) as usize)
}

/// The word of the root, by a seat that looks for its entry there. Where it is not the seat's own Busy word, the seat
/// has its letter.
pub(crate) fn find_at_root(table: &HuntTable, pass: &mut HuntPass) -> u64
    requires table { IsHeapTable table.now }
    requires own { Belongs table.now pass.old }
    requires find { CanFind (view_of pass.old) 1 × ((view_of pass.old).post.owed ≡ []) }
    ensures stays { Stays table.now pass.old pass.new }
    ensures word { (g : Guard) → Contains (view_of pass.old).post.own.guards g → g.node ≡ 1 → result ≡ g.stored }
    ensures found { (e : Entry) → (view_of pass.old).post.flight ≡ Some e →
        (result ≡ busy_number pass.old.number e → view_of pass.new ≡ view_of pass.old) ×
        (result ≢ busy_number pass.old.number e → view_of pass.new ≡
        with_post (view_of pass.old) (missing (view_of pass.old).post)) }
{
    table
        .table
        .shared
        .load::<FindAtRoot>(&mut pass.seat, word_of(1) as usize)
}
