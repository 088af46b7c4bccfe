//! A node of the search, and what dispatching an operation makes of it.
ghost use Rattle.std.specs.Prelude.{◌≡◌, ◌+◌, ◌*◌, ◌≤◌, ◌<◌, [], length, replicate, slice_index, IfOk};
ghost use Rattle.inst_text.specs.Limits.{max_jobs, max_machines, max_operations, max_total};
ghost use Rattle.bb_shop.specs.Working.{AreUpTo, child_by};

use crate::node_memory::{Change, NodeMemory};
use inst_text::{MAX_TOTAL, Operation};
use pq_io::NoMemory;
use std::alloc::Global;
use std::marker::Model;

/// A node of the search: the jobs dispatched so far, each job's next step, and when the jobs and the machines
/// are ready for their next operations.
///
/// It takes one piece of memory, of four bytes for each ready time, and one byte for each job and each operation.
#[derive(Debug, Drop)]
pub struct ShopNode {
    job_count: u8,
    machine_count: u8,
    /// How many operations are dispatched.
    depth: u16,
    /// The ready times of the jobs and those of the machines; then, as bytes, the next steps of the jobs and the jobs
    /// dispatched so far.
    memory: NodeMemory,
}

impl Model for ShopNode {
    ghost use Rattle.std.specs.Prelude.{◌+◌, take};
    ghost use Rattle.bb_shop.specs.Branching.{Node};
    ghost use Rattle.bb_shop.specs.Memory.{times_of, bytes_of};
    ghost use Rattle.bb_shop.specs.Working.{IsKept, part};

    ghost Value = { Node };

    ghost view = { λ n. record {
      order = part n.job_count (n.job_count + n.depth) (bytes_of n.memory);
      steps = take n.job_count (bytes_of n.memory);
      jobs = take n.job_count (times_of n.memory);
      machines = part n.job_count (n.job_count + n.machine_count) (times_of n.memory);
    } };

    ghost invariant = { λ n. IsKept n.job_count n.machine_count n.depth (times_of n.memory) (bytes_of n.memory) };
}

impl ShopNode {
    /// The node that dispatches nothing yet. O(n) in the number of jobs, machines and operations.
    pub(crate) fn root(alloc: Global, jobs: usize, machines: usize) -> Result<ShopNode, NoMemory>
        requires jobs { jobs ≤ max_jobs }
        requires machines { machines ≤ max_machines }
        requires operations { jobs * machines ≤ max_operations }
        ensures { IfOk result (λ node. node ≡ record {
          order = [];
          steps = replicate jobs 0;
          jobs = replicate jobs 0;
          machines = replicate machines 0;
        }) }
    {
        Ok(ShopNode {
            job_count: jobs as u8,
            machine_count: machines as u8,
            depth: 0,
            memory: NodeMemory::cleared(alloc, jobs + machines, jobs + jobs * machines)?,
        })
    }

    /// When each job is ready. Constant time.
    pub fn jobs(&self) -> &[u32]
        ensures jobs { result.now ≡ self.now.jobs }
        ensures within { AreUpTo max_total self.now.jobs }
    {
        &self.memory.times()[..usize::from(self.job_count)]
    }

    /// When each machine is ready. Constant time.
    pub fn machines(&self) -> &[u32]
        ensures machines { result.now ≡ self.now.machines }
        ensures within { AreUpTo max_total self.now.machines }
    {
        let first = usize::from(self.job_count);
        &self.memory.times()[first..first + usize::from(self.machine_count)]
    }

    /// Each job's next step. Constant time.
    pub fn steps(&self) -> &[u8]
        ensures { result.now ≡ self.now.steps }
    {
        &self.memory.bytes()[..usize::from(self.job_count)]
    }

    /// The jobs dispatched so far. Constant time.
    pub fn order(&self) -> &[u8]
        ensures { result.now ≡ self.now.order }
    {
        let first = usize::from(self.job_count);
        &self.memory.bytes()[first..first + usize::from(self.depth)]
    }

    /// The child that dispatches this operation, the job's next one. It copies the node.
    pub(crate) fn dispatching(
        &self,
        alloc: Global,
        operation: Operation,
        job: usize,
    ) -> Result<ShopNode, NoMemory>
        requires job { job < length self.now.steps }
        requires step { slice_index self.now.steps job < length self.now.machines }
        requires machine { operation.machine < length self.now.machines }
        ensures { IfOk result (λ child. child ≡ child_by self.now operation job) }
    {
        let first = usize::from(self.job_count);
        let machine = first + operation.machine as usize;
        let times = self.memory.times();
        let start = times[job].max(times[machine]);
        let change = Change {
            job,
            machine,
            end: start.saturating_add(operation.time).min(MAX_TOTAL),
            place: first + usize::from(self.depth),
        };
        Ok(ShopNode {
            job_count: self.job_count,
            machine_count: self.machine_count,
            depth: self.depth + 1,
            memory: self.memory.changed(alloc, change)?,
        })
    }
}
