//! Laws of the order of a tree in which several removers sift at once.
ghost use Rattle.pq_nodes.specs.OrderLaws.{RootsAreLeast, ChangesKeepOrder, SwapsKeepOrder, ClimbsKeepOrder};

/// Law: the root bounds what stands below it, and the order outlives the change of a node, the move of a hole down to a
/// child, and the climb of what stands at a child.
pub fn tree_orders_keep()
    ensures least { RootsAreLeast }
    ensures change { ChangesKeepOrder }
    ensures swap { SwapsKeepOrder }
    ensures climb { ClimbsKeepOrder }
{}
