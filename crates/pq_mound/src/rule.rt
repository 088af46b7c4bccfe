//! The rule of the mound's table.
ghost use Rattle.pq_mound.specs.Rules.{mound_rule};
ghost use Rattle.pq_mound.specs.NodeParts.{mound_nodes};
ghost use Rattle.pq_mound.specs.LawsHold.{mound_laws};
ghost use Rattle.pq_mound.specs.LawsHold.NodeSteps.{mound_node_laws};

use crate::{MoundPart, Node};
use pq_nodes::NodeRule;
use pq_seats::{SeatPass, SeatRule, Shared};

/// The rule of the mound's table: which words are locks, and what ties words, views and multiset together between any
/// two steps of any seats.
pub struct MoundRule;

impl SeatRule for MoundRule {
    type Own = MoundPart;

    ghost rule = { mound_rule };

    ghost lawful = { mound_laws };
}

impl NodeRule for MoundRule {
    type Node = Node;

    ghost nodes = { mound_nodes };

    ghost node_laws = { mound_node_laws };
}

/// A seat at the table of a mound.
pub(crate) type TablePass = SeatPass<MoundRule>;

/// The table of a mound.
pub(crate) type MoundTable = Shared<MoundRule>;
