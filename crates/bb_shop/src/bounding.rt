//! The bound of a node: what each job and each machine still has to do.
ghost use Rattle.std.specs.Prelude.{ℕ, ◌≡◌, ◌+◌, ◌≤◌, ◌<◌, length, slice_index};
ghost use Rattle.std.specs.List.{AllByRecursion};
ghost use Rattle.inst_text.specs.Limits.{max_machines, max_total};
ghost use Rattle.inst_text.specs.Shop.{row_time};
ghost use Rattle.bb_shop.specs.Bounds.{finish, job_load, greatest, each_from};
ghost use Rattle.bb_shop.specs.Loading.{unloaded, with_load, load_in};
ghost use Rattle.bb_shop.specs.Tables.{operations_in, HaveTails};
ghost use Rattle.bb_shop.specs.Working.{AreUpTo, FitTo, finish_at, whole_load, bound_by};

use crate::machine_load::{MachineLoad, UNLOADED, greatest_machine_bound};
use crate::prepared_operation::PreparedOperation;
use crate::shop::Shop;
use inst_text::MAX_MACHINES;

// How many machines a small table of loads has room for, and one of middle size.
const FEW: usize = 4;

const SOME: usize = 16;

const MOST_MACHINES: usize = MAX_MACHINES as usize;

// When a job that is ready at this time has finished these operations at the earliest. It adds to the
// machines' loads what the operations ask of them. One pass.
fn run_job(ops: &[PreparedOperation], machines: &[u32], from: u32, loads: &mut [MachineLoad]) -> u32
    requires tails { HaveTails ops.now }
    requires named { AllByRecursion (λ p. p.operation.machine < length machines.now) ops.now }
    requires places { length machines.now ≤ length loads.old }
    requires within { AreUpTo max_total machines.now }
    requires start { from ≤ max_total }
    requires time { row_time (operations_in ops.now) ≤ max_total }
    requires times { (m : ℕ) → m < length machines.now →
        (with_load (load_in loads.old m) (job_load machines.now m from (operations_in ops.now))).time ≤ max_total }
    ensures finish { result ≡ finish machines.now from (operations_in ops.now) }
    ensures loads { (m : ℕ) → m < length machines.now →
        load_in loads.new m ≡ with_load (load_in loads.old m) (job_load machines.now m from (operations_in ops.now)) }
{
    let mut ready = from;
    for prepared in ops {
        let machine = prepared.operation.machine as usize;
        let time = prepared.operation.time;
        let head = ready.max(machines[machine]);
        loads[machine] = loads[machine].with(head, time, prepared.tail);
        ready = head + time;
    }
    ready
}

/// The greatest of these numbers, and 0 of none. One pass.
pub fn greatest_of(numbers: &[u32]) -> u32
    ensures { result ≡ greatest numbers.now }
{
    let mut greatest = 0;
    for number in numbers {
        greatest = (*number).max(greatest);
    }
    greatest
}

impl Shop {
    /// The bound of a node with these next steps and ready times. One pass over the operations that are left.
    pub(crate) fn bound_by(&self, steps: &[u8], jobs: &[u32], machines: &[u32]) -> u32
        requires { FitTo self.now steps.now jobs.now machines.now }
        ensures { result ≡ bound_by self.now steps.now jobs.now machines.now }
    {
        // Most shops have few machines, and a small table of loads is set up faster.
        let count = self.machine_count();
        if count <= FEW {
            self.bound_with::<FEW>(steps, jobs, machines)
        } else if count <= SOME {
            self.bound_with::<SOME>(steps, jobs, machines)
        } else {
            self.bound_with::<MOST_MACHINES>(steps, jobs, machines)
        }
    }

    // The same, with a table of so many loads. A function clears all of its tables when it is entered, so each size
    // has a function of its own.
    fn bound_with<const N: usize>(&self, steps: &[u8], jobs: &[u32], machines: &[u32]) -> u32
        requires fit { FitTo self.now steps.now jobs.now machines.now }
        requires places { length machines.now ≤ N }
        requires few { N ≤ max_machines }
        ensures { result ≡ bound_by self.now steps.now jobs.now machines.now }
    {
        self.bound_over(steps, jobs, machines, &mut [UNLOADED; N])
    }

    // The same, with a table of loads of no operations, for as many machines at least as there are.
    fn bound_over(
        &self,
        steps: &[u8],
        jobs: &[u32],
        machines: &[u32],
        loads: &mut [MachineLoad],
    ) -> u32
        requires fit { FitTo self.now steps.now jobs.now machines.now }
        requires places { length machines.now ≤ length loads.old }
        requires none { (m : ℕ) → load_in loads.old m ≡ unloaded }
        ensures { result ≡ bound_by self.now steps.now jobs.now machines.now }
    {
        let count = self.machine_count();
        let finish = self.last_finish(steps, jobs, machines, loads);
        let machine_bound = greatest_machine_bound(&loads[..count]);
        finish.max(greatest_of(machines).max(machine_bound))
    }

    // When the last job finishes at the earliest. It adds to the machines' loads, which are those of no
    // operations, what the operations that are left ask of them. One pass over these operations.
    fn last_finish(
        &self,
        steps: &[u8],
        jobs: &[u32],
        machines: &[u32],
        loads: &mut [MachineLoad],
    ) -> u32
        requires fit { FitTo self.now steps.now jobs.now machines.now }
        requires places { length machines.now ≤ length loads.old }
        requires none { (m : ℕ) → load_in loads.old m ≡ unloaded }
        ensures finish { result ≡
            greatest (each_from (finish_at self.now steps.now jobs.now machines.now) 0 (length self.now.rows)) }
        ensures loads { (m : ℕ) → m < length machines.now →
            load_in loads.new m ≡ with_load unloaded (whole_load self.now steps.now jobs.now machines.now m) }
    {
        let mut greatest = 0;
        for job in 0..self.job_count() {
            let rest = self.rest(job, steps[job] as usize);
            greatest = run_job(rest, machines, jobs[job], loads).max(greatest);
        }
        greatest
    }
}
