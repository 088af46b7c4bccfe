//! The job shop as a problem to search: dispatch one of the jobs that compete for a machine after another.
ghost use Rattle.std.specs.Prelude.{ℕ, List, ◌≡◌, IfOk};
ghost use Rattle.inst_text.specs.Shop.{IsJobShop};
ghost use Rattle.bb_problem.specs.Expanding.{IsExpanded, IsInRange, IfLeaf};
ghost use Rattle.bb_shop.specs.Dispatching.{state_of};
ghost use Rattle.bb_shop.specs.Plans.{makespan};
ghost use Rattle.bb_shop.specs.Branching.{Stands};
ghost use Rattle.bb_onemach.specs.Branching.{meaning_of};
ghost use Rattle.bb_onemach.specs.TreeLawsHold.Lawful.{lawful};

use crate::active_shop::ActiveShop;
use crate::branching::competing;
use bb_problem::{Problem, Step};
use bb_shop::ShopNode;
use inst_text::{MAX_TOTAL, Starts};
use pq_io::NoMemory;
use std::alloc::Global;

/// A node of the search, which is kept as dispatching keeps one.
pub type ActiveNode = ShopNode;

/// The search dispatches the jobs that compete for the machine of the operation that could end first, and bounds a node
/// by what each machine still has to do (B. Giffler and G. L. Thompson, Algorithms for solving production-scheduling
/// problems, 1960).
impl Problem for ActiveShop {
    type Node = ActiveNode;

    type Plan = Starts;

    ghost is_problem = { IsJobShop };

    ghost meaning = { meaning_of };

    /// The node that dispatches nothing. O(n) in the number of jobs and machines.
    fn root(&self, alloc: Global) -> Result<ActiveNode, NoMemory> {
        self.shop().root(alloc)
    }

    /// The greatest of the times at which the jobs finish at the earliest, the machines' ready times and what each
    /// machine's tasks take at least, by thresholds of heads and tails. One pass over the operations, and for each
    /// machine a pass over its tasks for each of them.
    fn bound(&self, node: &ActiveNode) -> u32 {
        if !self.shop().fits(node) {
            return 0;
        }
        self.bound_by(node.steps(), node.jobs(), node.machines())
            .min(MAX_TOTAL)
    }

    /// The plan of a node that dispatches all operations, else a child for each job that competes for the machine of
    /// the operation that could end first. O(n) in the number of operations for each child and for the plan.
    fn expand(&self, alloc: Global, node: ActiveNode) -> Result<Step<Starts, ActiveNode>, NoMemory>
        ensures range { IfOk result (IsInRange (makespan self.now)) }
        ensures expanded { IfOk result (λ step. (name : List ℕ) → Stands self.now node name →
            IsExpanded (meaning_of self.now) name step) }
        // A leaf has the start times of the dispatched operations.
        ensures leaf { IfOk result (λ step. (name : List ℕ) → Stands self.now node name →
            IfLeaf (λ starts. starts ≡ (state_of self.now name).starts) step) }
    {
        let shop = self.shop();
        if shop.fits(&node) {
            let jobs = competing(shop, &node);
            if !jobs.is_empty() {
                return Ok(Step::Branch(shop.branch(alloc, &node, jobs.as_slice())?));
            }
        }
        Ok(Step::Leaf(shop.starts_of(alloc, &node)?))
    }

    /// The makespan. One pass over the start times.
    fn cost(&self, starts: &Starts) -> u32 {
        self.shop().makespan_of(starts)
    }

    ghost lawful = { lawful };
}
