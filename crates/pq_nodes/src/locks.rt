//! Taking and freeing the locks of nodes.
ghost use Rattle.std.specs.Prelude.{Contains};
ghost use Rattle.pq_seats.specs.Passes.{view_of, Belongs};
ghost use Rattle.pq_nodes.specs.Layout as layout;
ghost use Rattle.pq_nodes.specs.Parts.{without_node, IsFreeable};
ghost use Rattle.pq_nodes.specs.Passes.{ComesTo, IsNode, TookNode, HoldsTwo, Stays};

use crate::NodeRule;
use crate::layout::lock_of;
use crossbeam_utils::Backoff;
use pq_seats::{SeatPass, Shared};
use std::sync::Wait;

/// Takes the lock of a node. The view has a guard for it then. The first try stands here alone, so that it costs no
/// call.
#[inline]
pub fn take_node<R: NodeRule, W: Wait>(table: &Shared<R>, rt: &W, pass: &mut SeatPass<R>, node: u32)
    requires own { Belongs table.now pass.old }
    requires node { IsNode R.nodes table.now node }
    ensures stays { Stays table.now pass.old pass.new }
    ensures took { TookNode R.nodes (view_of pass.old) (view_of pass.new) node }
{
    if table.try_lock(pass, lock_of(node)) {
        return;
    }
    wait_for_node(table, rt, pass, node);
}

// Takes the lock of a node that another seat had at the first try.
#[cold]
#[inline(never)]
fn wait_for_node<R: NodeRule, W: Wait>(table: &Shared<R>, rt: &W, pass: &mut SeatPass<R>, node: u32)
    requires own { Belongs table.now pass.old }
    requires node { IsNode R.nodes table.now node }
    ensures stays { Stays table.now pass.old pass.new }
    ensures took { TookNode R.nodes (view_of pass.old) (view_of pass.new) node }
{
    Backoff::new().snooze();
    table.lock(rt, pass, lock_of(node));
}

/// Frees the lock of a node, which counts as its word says, and where the rule allows it.
pub fn free_node<R: NodeRule>(table: &Shared<R>, pass: &mut SeatPass<R>, node: u32)
    requires own { Belongs table.now pass.old }
    requires node { IsNode R.nodes table.now node }
    requires held { Contains (view_of pass.old).post.locks (layout.lock_of node) }
    requires counted { IsFreeable R.nodes (view_of pass.old) node }
    ensures stays { Stays table.now pass.old pass.new }
    ensures freed { ComesTo (view_of pass.old) (view_of pass.new) (without_node R.nodes (view_of pass.old).post node) }
{
    table.unlock(pass, lock_of(node));
}

/// Frees the locks of two nodes, the second one first.
pub fn free_two<R: NodeRule>(table: &Shared<R>, pass: &mut SeatPass<R>, first: u32, second: u32)
    requires own { Belongs table.now pass.old }
    requires nodes { IsNode R.nodes table.now first × IsNode R.nodes table.now second }
    requires held { HoldsTwo R.nodes (view_of pass.old) first second }
    ensures stays { Stays table.now pass.old pass.new }
    ensures freed { ComesTo (view_of pass.old) (view_of pass.new)
        (without_node R.nodes (without_node R.nodes (view_of pass.old).post second) first) }
{
    free_node(table, pass, second);
    free_node(table, pass, first);
}
