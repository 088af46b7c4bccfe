//! The rule of the heap's table.
ghost use Rattle.pq_hunt.specs.Rules.{hunt_rule};
ghost use Rattle.pq_hunt.specs.NodeParts.{hunt_nodes};
ghost use Rattle.pq_hunt.specs.LawsHold.{hunt_laws};
ghost use Rattle.pq_hunt.specs.LawsHold.NodeSteps.{hunt_node_laws};

use crate::{HuntPart, Node};
use pq_nodes::NodeRule;
use pq_seats::{SeatPass, SeatRule, Shared};

/// The rule of the heap's table: which words are locks, and what ties words, views and multiset together between any
/// two steps of any seats.
pub struct HuntRule;

impl SeatRule for HuntRule {
    type Own = HuntPart;

    ghost rule = { hunt_rule };

    ghost lawful = { hunt_laws };
}

impl NodeRule for HuntRule {
    type Node = Node;

    ghost nodes = { hunt_nodes };

    ghost node_laws = { hunt_node_laws };
}

/// A pass of a heap: a seat at its table.
pub type HuntPass = SeatPass<HuntRule>;

/// The table of a heap.
pub(crate) type HuntTable = Shared<HuntRule>;
