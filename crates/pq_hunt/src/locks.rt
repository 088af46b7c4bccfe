//! Taking and freeing the lock over the size.
ghost use Rattle.std.specs.Prelude.{◌≡◌, ◌<◌, ◌≤◌, Contains};
ghost use Rattle.pq_seats.specs.Passes.{limits_of, view_of, Belongs};
ghost use Rattle.pq_nodes.specs.Passes.{ComesTo, Stays};
ghost use Rattle.pq_hunt.specs.Layout as layout;
ghost use Rattle.pq_hunt.specs.HeldPosts.{TookHeap, without_heap};
ghost use Rattle.pq_hunt.specs.Tables.{IsHeapTable};

use crate::layout::HEAP_LOCK;
use crate::{HuntPass, HuntTable};
use std::sync::Wait;

/// Takes the heap's lock. The view names the size then.
pub(crate) fn take_heap<W: Wait>(table: &HuntTable, rt: &W, pass: &mut HuntPass)
    requires table { IsHeapTable table.now }
    requires own { Belongs table.now pass.old }
    ensures stays { Stays table.now pass.old pass.new }
    ensures took { TookHeap (view_of pass.old) (view_of pass.new) (limits_of table.now).capacity }
{
    table.lock(rt, pass, HEAP_LOCK);
}

/// Frees the heap's lock, where the size is stored as it counts.
pub(crate) fn free_heap(table: &HuntTable, pass: &mut HuntPass)
    requires table { IsHeapTable table.now }
    requires own { Belongs table.now pass.old }
    requires held { Contains (view_of pass.old).post.locks layout.heap_lock }
    requires stored { (view_of pass.old).post.own.size_stored ≡ (view_of pass.old).post.own.size_counted }
    ensures stays { Stays table.now pass.old pass.new }
    ensures freed { ComesTo (view_of pass.old) (view_of pass.new) (without_heap (view_of pass.old).post) }
{
    table.unlock(pass, HEAP_LOCK);
}
