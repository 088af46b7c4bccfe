//! Loads and stores of nodes' words, each one step under locks that the seat holds.
ghost use Rattle.std.specs.Prelude.{◌≡◌, ◌≤◌, Contains};
ghost use Rattle.pq_seats.specs.Passes.{limits_of, view_of, Belongs};
ghost use Rattle.pq_seats.specs.Views.{with_post};
ghost use Rattle.pq_seats.specs.Laws.{history_limit};
ghost use Rattle.pq_nodes.specs.declared.guards.Guard.{Guard};
ghost use Rattle.pq_nodes.specs.Views.{exchanged, exchanged_third};
ghost use Rattle.pq_nodes.specs.Parts.{HasGuard, guarding, with_word};
ghost use Rattle.pq_nodes.specs.Raising.{CanRaiseSecond, CanRaiseThird};
ghost use Rattle.pq_nodes.specs.Passes.{IsNode, Stays};

use crate::NodeRule;
use crate::layout::word_of;
use crate::plays::{Look, RaiseSecond, RaiseThird, Store};
use pq_seats::{SeatPass, Shared};

/// The word of a node whose lock the seat holds. The load tells besides what the rule shows of each seat.
pub fn look<R: NodeRule>(table: &Shared<R>, pass: &mut SeatPass<R>, node: u32) -> u64
    requires own { Belongs table.now pass.old }
    requires node { IsNode R.nodes table.now node }
    ensures stays { Stays table.now pass.old pass.new }
    ensures view { view_of pass.new ≡ view_of pass.old }
    ensures word { (g : Guard R.Node) → Contains (R.nodes.guards (view_of pass.old).post.own) g →
        g.node ≡ node → result ≡ g.stored }
    ensures shown { R.nodes.shows (view_of pass.old).post }
{
    table
        .table
        .shared
        .load::<Look<R>>(&mut pass.seat, word_of(node) as usize)
}

/// Stores the word of a node that counts as it did.
pub fn store<R: NodeRule>(table: &Shared<R>, pass: &mut SeatPass<R>, node: u32, word: u64)
    requires own { Belongs table.now pass.old }
    requires node { IsNode R.nodes table.now node }
    requires guarded { HasGuard R.nodes (view_of pass.old) node }
    requires allowed { R.nodes.may_store (view_of pass.old).post node word }
    ensures stays { Stays table.now pass.old pass.new }
    ensures view { view_of pass.new ≡
        with_post (view_of pass.old) (with_word R.nodes (view_of pass.old).post node word) }
    ensures small { (view_of pass.old).front ≤ history_limit }
{
    table
        .table
        .shared
        .store::<Store<R>>(&mut pass.seat, word_of(node) as usize, word);
}

/// Stores the word of the second guard's node in the hole, which is the first one's. The two nodes count in each
/// other's place from then on.
pub fn raise_second<R: NodeRule>(table: &Shared<R>, pass: &mut SeatPass<R>, hole: u32, word: u64)
    requires own { Belongs table.now pass.old }
    requires node { IsNode R.nodes table.now hole }
    requires raise { CanRaiseSecond R.rule R.nodes (limits_of table.now) pass.old.seat.id (view_of pass.old) hole word }
    ensures stays { Stays table.now pass.old pass.new }
    ensures view { view_of pass.new ≡ with_post (view_of pass.old)
        (guarding R.nodes (view_of pass.old).post (exchanged (R.nodes.guards (view_of pass.old).post.own))) }
{
    table
        .table
        .shared
        .store::<RaiseSecond<R>>(&mut pass.seat, word_of(hole) as usize, word);
}

/// Stores the word of the third guard's node in the hole, which is the first one's. The two nodes count in each
/// other's place from then on.
pub fn raise_third<R: NodeRule>(table: &Shared<R>, pass: &mut SeatPass<R>, hole: u32, word: u64)
    requires own { Belongs table.now pass.old }
    requires node { IsNode R.nodes table.now hole }
    requires raise { CanRaiseThird R.rule R.nodes (limits_of table.now) pass.old.seat.id (view_of pass.old) hole word }
    ensures stays { Stays table.now pass.old pass.new }
    ensures view { view_of pass.new ≡ with_post (view_of pass.old)
        (guarding R.nodes (view_of pass.old).post (exchanged_third (R.nodes.guards (view_of pass.old).post.own))) }
{
    table
        .table
        .shared
        .store::<RaiseThird<R>>(&mut pass.seat, word_of(hole) as usize, word);
}
