//! When the operations that are left start at the earliest.
ghost use Rattle.std.specs.Prelude.{ℕ, ◌≡◌, ◌≤◌, ◌<◌, ◌+◌, ◌*◌, length};
ghost use Rattle.std.specs.List.{AllByRecursion};
ghost use Rattle.inst_text.specs.Limits.{max_total};
ghost use Rattle.inst_text.specs.Shop.{operations, row_time};
ghost use Rattle.bb_shop.specs.Bounds.{finish, greatest, each_from};
ghost use Rattle.bb_shop.specs.Tables.{operations_in};
ghost use Rattle.bb_shop.specs.Dispatching.{number_in};
ghost use Rattle.bb_shop.specs.Working.{AreUpTo, FitTo, finish_at};
ghost use Rattle.bb_onemach.specs.Visits.{heads};
ghost use Rattle.bb_onemach.specs.Working.{IsWritten, HasHeads};

use bb_shop::{PreparedOperation, Shop};

// Writes the heads of a job's operations, the first of them at this place, and gives when the job finishes at the
// earliest, which is ready at this time. One pass.
fn write_heads(
    operations: &[PreparedOperation],
    machines: &[u32],
    from: u32,
    place: usize,
    table: &mut [u32],
) -> u32
    requires named { AllByRecursion (λ p. p.operation.machine < length machines.now) operations.now }
    requires places { place + length operations.now ≤ length table.old }
    requires within { AreUpTo max_total machines.now }
    requires start { from ≤ max_total }
    requires time { row_time (operations_in operations.now) ≤ max_total }
    ensures finish { result ≡ finish machines.now from (operations_in operations.now) }
    ensures written { IsWritten place (heads machines.now from (operations_in operations.now)) table.old table.new }
{
    let mut ready = from;
    for (step, prepared) in operations.iter().enumerate() {
        let operation = prepared.operation;
        let head = ready.max(machines[operation.machine as usize]);
        table[place + step] = head;
        ready = head + operation.time;
    }
    ready
}

/// Writes the heads of all operations that are left into the table, by job and step, and gives when the last job
/// finishes at the earliest. One pass over these operations.
pub fn write_all_heads(
    shop: &Shop,
    steps: &[u8],
    jobs: &[u32],
    machines: &[u32],
    table: &mut [u32],
) -> u32
    requires fit { FitTo shop.now steps.now jobs.now machines.now }
    requires places { operations shop.now ≤ length table.old }
    ensures finish { result ≡
        greatest (each_from (finish_at shop.now steps.now jobs.now machines.now) 0 (length shop.now.rows)) }
    ensures heads { HasHeads shop.now steps.now jobs.now machines.now table.new }
    ensures length { length table.new ≡ length table.old }
{
    let count = shop.machine_count();
    let mut finish = 0;
    for job in 0..shop.job_count() {
        let step = (steps[job] as usize).min(count);
        let place = job * count + step;
        finish = write_heads(shop.rest(job, step), machines, jobs[job], place, table).max(finish);
    }
    finish
}
