//! The operations of each machine, prepared once: those of a machine by falling tails.
ghost use Rattle.std.specs.Prelude.{◌≡◌, ◌≤◌, ◌<◌, ◌++◌, length, map, IfOk, OnOk};
ghost use Rattle.inst_text.specs.Limits.{max_jobs, max_machines};
ghost use Rattle.bb_onemach.specs.Working.{prepared_visits, IsRow, AreRows};

use bb_shop::{PreparedOperation, Shop};
use pq_io::NoMemory;
use std::alloc::Global;

/// An operation as its machine's list has it: its job and its step, how long it takes, and the sum of the times
/// after it in its job.
#[derive(Clone, Copy, Debug)]
pub struct Visit {
    pub job: u32,
    pub step: u32,
    pub time: u32,
    pub tail: u32,
}

// Adds the operations of a job that need this machine. One pass.
fn add_visits(
    row: &mut Vec<Visit>,
    operations: &[PreparedOperation],
    machine: usize,
    job: usize,
) -> Result<(), NoMemory>
    requires job { job ≤ max_jobs }
    requires few { length operations.now ≤ max_machines }
    ensures { OnOk result (row.new.items ≡ row.old.items ++ prepared_visits machine job 0 operations.now) }
{
    for (step, prepared) in operations.iter().enumerate() {
        let operation = prepared.operation;
        if operation.machine as usize == machine {
            row.push(Visit {
                job: job as u32,
                step: step as u32,
                time: operation.time,
                tail: prepared.tail,
            })?;
        }
    }
    Ok(())
}

// The operations that need this machine, by falling tails.
fn visits_of(alloc: Global, shop: &Shop, machine: usize) -> Result<Vec<Visit>, NoMemory>
    ensures { IfOk result (λ row. IsRow shop.now machine row.items) }
{
    let mut row = Vec::new(alloc);
    for job in 0..shop.job_count() {
        add_visits(&mut row, shop.rest(job, 0), machine, job)?;
    }
    row.sort_unstable_by_key(|visit| u32::MAX - visit.tail);
    Ok(row)
}

/// The operations of each machine. O(m n log n) for n operations and m machines.
pub fn all_visits(alloc: Global, shop: &Shop) -> Result<Vec<Vec<Visit>>, NoMemory>
    ensures { IfOk result (λ rows. AreRows shop.now (map (λ row. row.items) rows.items)) }
{
    let mut rows = Vec::with_capacity(alloc, shop.machine_count())?;
    for machine in 0..shop.machine_count() {
        rows.push(visits_of(alloc, shop, machine)?)?;
    }
    Ok(rows)
}
