//! The knapsack as a problem that a search can be given.

ghost use Rattle.std.specs.Prelude.{ℕ, List, IfOk};
ghost use Rattle.inst_text.specs.Knapsack.{IsInstance};
ghost use Rattle.bb_problem.specs.Expanding.{IsExpanded, IsInRange, IfLeaf, step_of};
ghost use Rattle.bb_knap.specs.Plans.{cost_of};
ghost use Rattle.bb_knap.specs.TreeLawsHold.Tree.{lawful};
ghost use Rattle.bb_knap.specs.Branching.{Stands, IsPlanOf, meaning_of};

use crate::knapsack::Knapsack;
use crate::node::KnapNode;
use crate::order::numbered_item;
use crate::plan::plan;
use bb_problem::{Problem, Step};
use inst_text::Choice;
use pq_io::NoMemory;
use std::alloc::Global;

/// The search decides on the items in the order of their values for their weight, takes an item where it fits
/// or leaves it, and bounds a node by Dantzig's bound of the items that are left.
impl Problem for Knapsack {
    type Node = KnapNode;

    type Plan = Choice;

    ghost is_problem = { IsInstance };

    ghost meaning = { meaning_of };

    /// The node that decides nothing. Constant time.
    fn root(&self, _alloc: Global) -> Result<KnapNode, NoMemory> {
        Ok(KnapNode::root(self.capacity()))
    }

    /// The sum of all values, but those of the taken items and Dantzig's bound of the rest. O(log n).
    fn bound(&self, node: &KnapNode) -> u32 {
        let depth = node.depth().min(self.items().len());
        self.bound_at(depth, node.room(), node.value())
    }

    /// As `expand_into`, with the children in a list of their own.
    fn expand(&self, alloc: Global, node: KnapNode) -> Result<Step<Choice, KnapNode>, NoMemory>
        ensures range { IfOk result (IsInRange (cost_of self.now)) }
        ensures expanded { IfOk result (λ step. (name : List ℕ) → Stands self.now node name →
            IsExpanded (meaning_of self.now) name step) }
        // A leaf has just the items that its decisions take.
        ensures leaf { IfOk result (λ step. (name : List ℕ) → Stands self.now node name →
            IfLeaf (IsPlanOf self.now name) step) }
    {
        let mut children = Vec::new(alloc);
        match self.expand_into(alloc, node, &mut children)? {
            Some(plan) => Ok(Step::Leaf(plan)),
            None => Ok(Step::Branch(children)),
        }
    }

    /// The plan of a node that decides on all items, else the child that takes the next item, where it fits, and
    /// the child that leaves it. A child takes time to copy its decisions, a plan O(n log n).
    #[inline(always)]
    fn expand_into(
        &self,
        alloc: Global,
        node: KnapNode,
        children: &mut Vec<KnapNode>,
    ) -> Result<Option<Choice>, NoMemory>
        ensures range { IfOk result (λ leaf. IsInRange (cost_of self.now) (step_of leaf children.new)) }
        ensures expanded { IfOk result (λ leaf. (name : List ℕ) → Stands self.now node name →
            IsExpanded (meaning_of self.now) name (step_of leaf children.new)) }
        // A leaf has just the items that its decisions take.
        ensures leaf { IfOk result (λ leaf. (name : List ℕ) → Stands self.now node name →
            IfLeaf (IsPlanOf self.now name) (step_of leaf children.new)) }
    {
        children.clear();
        let items = self.items();
        let order = self.order();
        let depth = node.depth();
        if order.len() <= depth {
            return Ok(Some(plan(alloc, self, &node)?));
        }
        let item = numbered_item(items, order[depth]);
        children.reserve(2)?;
        if u64::from(item.weight) <= node.room() {
            children.push_reserved(node.taking(alloc, item)?);
        }
        children.push_reserved(node.leaving(alloc)?);
        Ok(None)
    }

    /// The sum of the values that the choice leaves behind. One pass over the choice.
    fn cost(&self, choice: &Choice) -> u32 {
        self.total_value() - self.value_within(choice)
    }

    ghost lawful = { lawful };
}
