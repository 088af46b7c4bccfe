//! The children of a node, and the plan of a node that has none.
ghost use Rattle.std.specs.Prelude.{ℕ, List, ◌≡◌, ◌↔◌, ◌≤◌, ◌<◌, length, map, All, IsTrue, IfOk};
ghost use Rattle.inst_text.specs.Limits.{max_jobs};
ghost use Rattle.inst_text.specs.Shop.{IsJobShop};
ghost use Rattle.bb_problem.specs.Expanding.{StandBelow};
ghost use Rattle.bb_problem.specs.Limits.{cost_limit};
ghost use Rattle.bb_shop.specs.Plans.{makespan};
ghost use Rattle.bb_shop.specs.Dispatching.{state_of};
ghost use Rattle.bb_shop.specs.Branching.{Stands};
ghost use Rattle.bb_shop.specs.Working.{FitTo, IsLeftAt, left_in, next_at, child_of};

use crate::booking::Booking;
use crate::node::ShopNode;
use crate::planning::plan;
use crate::shop::Shop;
use arrayvec::ArrayVec;
use inst_text::{MAX_JOBS, Starts};
use pq_io::NoMemory;
use std::alloc::Global;

const MOST_JOBS: usize = MAX_JOBS as usize;

/// Some jobs of a shop. It takes no memory.
pub type SomeJobs = ArrayVec<u8, { MOST_JOBS }>;

// The jobs that have fewer steps done than there are machines, in order. One pass.
fn left(steps: &[u8], machines: usize) -> SomeJobs
    requires { length steps.now ≤ max_jobs }
    ensures { result.items ≡ left_in machines steps.now }
{
    let mut jobs = SomeJobs::new();
    for (job, step) in steps.iter().enumerate() {
        if (*step as usize) < machines {
            jobs.push(job as u8);
        }
    }
    jobs
}

impl Shop {
    /// Tells whether the node is of as many jobs and machines as the shop. Constant time.
    pub fn fits(&self, node: &ShopNode) -> bool
        ensures fits { IsTrue result ↔ FitTo self.now node.now.steps node.now.jobs node.now.machines }
        ensures within_limits { IsJobShop self.now }
    {
        node.steps().len() == self.job_count()
            && node.jobs().len() == self.job_count()
            && node.machines().len() == self.machine_count()
    }

    /// The jobs that have operations left at a node, in order. One pass over the jobs.
    pub fn jobs_left(&self, node: &ShopNode) -> SomeJobs
        requires { FitTo self.now node.now.steps node.now.jobs node.now.machines }
        ensures jobs { result.items ≡ left_in self.now.machines node.now.steps }
        ensures left { All (IsLeftAt self.now node.now) result.items }
    {
        left(node.steps(), self.machine_count())
    }

    /// When a job's next operation needs its machine at a node: once the job and the machine are ready. Constant
    /// time.
    pub fn next(&self, node: &ShopNode, job: usize) -> Booking
        requires fit { FitTo self.now node.now.steps node.now.jobs node.now.machines }
        requires left { IsLeftAt self.now node.now job }
        ensures { result ≡ next_at self.now node.now job }
    {
        let operation = self.operation(job, node.steps()[job] as usize);
        let machine = node.machines()[operation.machine as usize];
        Booking::new(operation, node.jobs()[job].max(machine))
    }

    /// The children of a node that dispatch these jobs' next operations, one for each job. Each takes one piece of
    /// memory. O(n) in the size of the node for each child.
    pub fn branch(
        &self,
        alloc: Global,
        node: &ShopNode,
        jobs: &[u8],
    ) -> Result<Vec<ShopNode>, NoMemory>
        requires fit { FitTo self.now node.now.steps node.now.jobs node.now.machines }
        requires left { All (IsLeftAt self.now node.now) jobs.now }
        ensures children { IfOk result (λ nodes. nodes.items ≡ map (child_of self.now node.now) jobs.now) }
        ensures stand { IfOk result (λ nodes. (name : List ℕ) → Stands self.now node.now name →
            StandBelow (Stands self.now) name nodes.items jobs.now) }
    {
        let mut children = Vec::with_capacity(alloc, jobs.len())?;
        for job in jobs {
            let job = usize::from(*job);
            let operation = self.operation(job, node.steps()[job] as usize);
            children.push(node.dispatching(alloc, operation, job)?)?;
        }
        Ok(children)
    }

    /// The start times of the operations that a node has dispatched. O(n) in the number of operations.
    pub fn starts_of(&self, alloc: Global, node: &ShopNode) -> Result<Starts, NoMemory>
        ensures range { IfOk result (λ starts. makespan self.now starts < cost_limit) }
        ensures starts { IfOk result (λ starts. (name : List ℕ) → Stands self.now node.now name →
            starts ≡ (state_of self.now name).starts) }
    {
        plan(alloc, self, node.order())
    }
}
