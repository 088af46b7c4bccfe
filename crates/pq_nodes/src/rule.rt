//! What the rule of a table with a tree of locked nodes adds.
ghost use Rattle.pq_nodes.specs.Parts.{NodePart};
ghost use Rattle.pq_nodes.specs.NodeLaws.{NodeLaws};

use pq_seats::SeatRule;

/// The nodes' part of the rule of a table.
pub trait NodeRule: SeatRule {
    /// What a node counts as.
    type Node;

    /// Where views name the nodes whose locks they hold, and what a node's word means.
    ghost nodes: { NodePart Self.Own Self.Node };

    /// What the rule says of the nodes, and that it outlives the calls on them.
    ghost node_laws: { NodeLaws Self.rule nodes };
}
