//! The job shop as a problem to search: dispatch one operation after another.
ghost use Rattle.std.specs.Prelude.{ℕ, List, ◌≡◌, IfOk};
ghost use Rattle.inst_text.specs.Shop.{IsJobShop};
ghost use Rattle.bb_problem.specs.Expanding.{IsExpanded, IsInRange, IfLeaf};
ghost use Rattle.bb_shop.specs.Dispatching.{state_of};
ghost use Rattle.bb_shop.specs.Plans.{makespan};
ghost use Rattle.bb_shop.specs.Branching.{Stands, meaning_of};
ghost use Rattle.bb_shop.specs.TreeLawsHold.Lawful.{lawful};

use crate::makespan::makespan_of;
use crate::node::ShopNode;
use crate::shop::Shop;
use bb_problem::{Problem, Step};
use inst_text::{MAX_TOTAL, Starts};
use pq_io::NoMemory;
use std::alloc::Global;

/// The search dispatches the jobs' operations one after another, each as early as its job and its machine allow,
/// and bounds a node by what its jobs and machines still have to do.
impl Problem for Shop {
    type Node = ShopNode;

    type Plan = Starts;

    ghost is_problem = { IsJobShop };

    ghost meaning = { meaning_of };

    /// The node that dispatches nothing. O(n) in the number of jobs and machines.
    fn root(&self, alloc: Global) -> Result<ShopNode, NoMemory> {
        ShopNode::root(alloc, self.job_count(), self.machine_count())
    }

    /// The greatest of the times at which the jobs finish at the earliest, the machines' ready times and, for each
    /// machine, the least head, the sum of the times and the least tail of the operations left on it. One pass
    /// over the operations that are left.
    fn bound(&self, node: &ShopNode) -> u32 {
        if !self.fits(node) {
            return 0;
        }
        self.bound_by(node.steps(), node.jobs(), node.machines())
            .min(MAX_TOTAL)
    }

    /// The plan of a node that dispatches all operations, else a child for each job that has operations left.
    /// O(n) in the number of operations for each child and for the plan.
    fn expand(&self, alloc: Global, node: ShopNode) -> Result<Step<Starts, ShopNode>, NoMemory>
        ensures range { IfOk result (IsInRange (makespan self.now)) }
        ensures expanded { IfOk result (λ step. (name : List ℕ) → Stands self.now node name →
            IsExpanded (meaning_of self.now) name step) }
        // A leaf has the start times of the dispatched operations.
        ensures leaf { IfOk result (λ step. (name : List ℕ) → Stands self.now node name →
            IfLeaf (λ starts. starts ≡ (state_of self.now name).starts) step) }
    {
        if self.fits(&node) {
            let jobs = self.jobs_left(&node);
            if !jobs.is_empty() {
                return Ok(Step::Branch(self.branch(alloc, &node, jobs.as_slice())?));
            }
        }
        Ok(Step::Leaf(self.starts_of(alloc, &node)?))
    }

    /// The makespan. One pass over the start times.
    fn cost(&self, starts: &Starts) -> u32 {
        makespan_of(self.jobs(), starts)
    }

    ghost lawful = { lawful };
}
