//! The job-shop problem, and its calls.
ghost use Rattle.std.specs.Prelude.{◌≡◌, ◌≤◌, ◌<◌, drop, length, IfOk};
ghost use Rattle.inst_text.specs.Shop.{IsJobShop};
ghost use Rattle.bb_shop.specs.Plans.{row_at, operation_at, AreShaped, makespan};
ghost use Rattle.bb_shop.specs.Bounds.{root_bound};
ghost use Rattle.bb_shop.specs.Verdicts.{IsVerdict};
ghost use Rattle.bb_shop.specs.Tables.{prepared_row};

use crate::judging::judged;
use crate::makespan::makespan_of;
use crate::prepared_operation::{PreparedOperation, operation_table};
use crate::verdict::ShopVerdict;
use inst_text::{Jobs, MAX_JOBS, MAX_MACHINES, Operation, Starts};
use pq_io::NoMemory;
use std::alloc::Global;
use std::marker::Model;

/// The job-shop problem: when to start each operation of some jobs, so that the last one ends early.
///
/// Beside the jobs it keeps one table of their operations, from which bounds are taken.
#[derive(Debug, Drop)]
pub struct Shop {
    jobs: Jobs,
    table: Vec<PreparedOperation>,
}

impl Model for Shop {
    ghost use Rattle.inst_text.specs.Shop.{JobShop};
    ghost use Rattle.bb_shop.specs.Tables.{IsTable};

    ghost Value = { JobShop };

    ghost view = { λ s. s.jobs };

    ghost invariant = { λ s. IsTable s.jobs s.table.items };
}

impl Shop {
    /// The problem of these jobs. O(n) in the number of operations.
    pub fn new(alloc: Global, jobs: Jobs) -> Result<Shop, NoMemory>
        ensures { IfOk result (λ s. s ≡ jobs) }
    {
        let table = operation_table(alloc, jobs.rows.as_slice())?;
        Ok(Shop { jobs, table })
    }

    /// The jobs. Constant time.
    pub fn jobs(&self) -> &Jobs
        ensures jobs { result.now ≡ self.now }
        ensures within_limits { IsJobShop self.now }
    {
        &self.jobs
    }

    /// How many jobs there are, 1 to 100. Constant time.
    pub fn job_count(&self) -> usize
        ensures count { result ≡ length self.now.rows }
        ensures within_limits { IsJobShop self.now }
    {
        let jobs = &self.jobs;
        jobs.rows.len()
    }

    /// How many machines there are, 1 to 100, and so how many steps each job has. Constant time.
    pub fn machine_count(&self) -> usize
        ensures count { result ≡ self.now.machines }
        ensures within_limits { IsJobShop self.now }
    {
        let jobs = &self.jobs;
        jobs.machines as usize
    }

    /// The least makespan that the bound of the root allows, at most `MAX_TOTAL`: the greatest, over the jobs, of the
    /// sum of their times, and over the machines, of the least head, the sum of the times and the least tail of their
    /// operations (J. Carlier and E. Pinson, An algorithm for solving the job-shop problem, 1989). It takes no memory.
    /// O(n) in the number of operations.
    pub fn root_bound(&self) -> u32
        ensures { result ≡ root_bound self.now }
    {
        let jobs = self.job_count();
        let machines = self.machine_count();
        let steps = [0u8; (MAX_JOBS + MAX_MACHINES) as usize];
        let times = [0u32; (MAX_JOBS + MAX_MACHINES) as usize];
        self.bound_by(&steps[..jobs], &times[..jobs], &times[..machines])
    }

    /// The verdict on start times and the makespan that is stated for them: the first clause that fails. It takes
    /// no memory. Each pair of operations is compared at most once.
    pub fn judge(&self, starts: &Starts, stated: u32) -> ShopVerdict
        requires { AreShaped self.now starts.now }
        ensures { IsVerdict self.now starts.now stated result }
    {
        judged(&self.jobs, starts, stated)
    }

    /// The makespan of start times: the greatest end. It takes no memory. One pass over the start times.
    pub fn makespan_of(&self, starts: &Starts) -> u32
        ensures { result ≡ makespan self.now starts.now }
    {
        makespan_of(&self.jobs, starts)
    }

    /// The job's operation at this step. Constant time.
    pub fn operation(&self, job: usize, step: usize) -> Operation
        requires job { job < length self.now.rows }
        requires step { step < self.now.machines }
        ensures operation { result ≡ operation_at self.now job step }
        ensures within_limits { IsJobShop self.now }
    {
        let machines = self.machine_count();
        self.table[job * machines + step].operation
    }

    /// The job's operations from this step on, each with its tail. Constant time.
    pub fn rest(&self, job: usize, step: usize) -> &[PreparedOperation]
        requires { job < length self.now.rows }
        ensures { result.now ≡ prepared_row (drop step (row_at self.now.rows job)) }
    {
        let machines = self.machine_count();
        let first = job * machines;
        &self.table[first + step.min(machines)..first + machines]
    }
}
