//! The start times that an order of dispatching comes to.
ghost use Rattle.std.specs.Prelude.{◌≡◌, ◌+◌, ◌≤◌, ◌<◌, ◌^◌, length, max, slice_index, IfOk};
ghost use Rattle.inst_text.specs.Shop.{IsJobShop};
ghost use Rattle.bb_shop.specs.Dispatching.{State, opened, number_in, step_of, dispatched, IsLeft};
ghost use Rattle.bb_shop.specs.Working.{dispatched_by, IsReached, IsPlanOf};

use crate::shop::Shop;
use inst_text::{MAX_JOBS, MAX_MACHINES, Operation, Starts};
use pq_io::NoMemory;
use std::alloc::Global;
use std::marker::Model;

// What has been dispatched: the start times of each job's first operations, and when each job and each machine
// is ready.
#[derive(Drop)]
struct Schedule {
    starts: Vec<Vec<u32>>,
    jobs: Vec<u32>,
    machines: Vec<u32>,
}

impl Model for Schedule {
    ghost use Rattle.std.specs.Prelude.{map};
    ghost use Rattle.bb_shop.specs.Dispatching.{State};

    ghost Value = { State };

    ghost view = { λ s. record {
      starts = map (λ row. row.items) s.starts.items;
      jobs = s.jobs.items;
      machines = s.machines.items;
    } };
}

impl Schedule {
    // Nothing is dispatched. O(n) in the number of jobs and machines.
    fn opened(alloc: Global, shop: &Shop) -> Result<Schedule, NoMemory>
        ensures opened { IfOk result (λ st. st ≡ opened shop.now) }
        ensures within_limits { IsJobShop shop.now }
    {
        let at_once = [0u32; (MAX_JOBS + MAX_MACHINES) as usize];
        let mut starts = Vec::new(alloc);
        for _job in 0..shop.job_count() {
            starts.push(Vec::new(alloc))?;
        }
        Ok(Schedule {
            starts,
            jobs: Vec::from_slice(alloc, &at_once[..shop.job_count()])?,
            machines: Vec::from_slice(alloc, &at_once[..shop.machine_count()])?,
        })
    }

    // The step that the job comes to next. Constant time.
    fn step(&self, job: usize) -> usize
        requires { job < length self.now.starts }
        ensures { result ≡ step_of self.now job }
    {
        self.starts[job].len()
    }

    // The schedule with this operation of the job dispatched. Constant time, but for the times when a row grows.
    fn with(self, operation: Operation, job: usize) -> Result<Schedule, NoMemory>
        requires row { job < length self.starts }
        requires job { job < length self.jobs }
        requires machine { operation.machine < length self.machines }
        requires end { max (number_in self.jobs job) (number_in self.machines operation.machine) + operation.time
            < 2 ^ 32 }
        ensures { IfOk result (λ st. st ≡ dispatched_by self operation job) }
    {
        let Schedule {
            mut starts,
            mut jobs,
            mut machines,
        } = self;
        let machine = operation.machine as usize;
        let start = jobs[job].max(machines[machine]);
        starts[job].push(start)?;
        jobs[job] = start + operation.time;
        machines[machine] = start + operation.time;
        Ok(Schedule {
            starts,
            jobs,
            machines,
        })
    }
}

// Dispatches the job's next operation, where it has one left. Constant time, but for the times when a row grows.
fn dispatch(shop: &Shop, schedule: Schedule, job: usize) -> Result<Schedule, NoMemory>
    requires { IsReached shop.now schedule }
    ensures left { IfOk result (λ st. IsLeft shop.now schedule job → st ≡ dispatched shop.now schedule job) }
    ensures none { IfOk result (λ st. ¬ IsLeft shop.now schedule job → st ≡ schedule) }
{
    if shop.job_count() <= job {
        return Ok(schedule);
    }
    let step = schedule.step(job);
    if shop.machine_count() <= step {
        return Ok(schedule);
    }
    schedule.with(shop.operation(job, step), job)
}

/// The start times come to by dispatching these jobs in order. A job that has no operation left is passed over.
/// O(n) in the number of operations.
pub fn plan(alloc: Global, shop: &Shop, order: &[u8]) -> Result<Starts, NoMemory>
    ensures plan { IfOk result (λ starts. IsPlanOf shop.now order.now starts) }
    ensures within_limits { IsJobShop shop.now }
{
    let mut schedule = Schedule::opened(alloc, shop)?;
    for job in order {
        schedule = dispatch(shop, schedule, *job as usize)?;
    }
    let Schedule { starts, .. } = schedule;
    Ok(Starts { rows: starts })
}
