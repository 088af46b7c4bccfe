//! The verdict on start times: the first clause that fails.
ghost use Rattle.std.specs.Prelude.{◌≡◌, ◌≤◌, ◌<◌, length};
ghost use Rattle.inst_text.specs.Shop.{IsJobShop, AreStarts};
ghost use Rattle.bb_shop.specs.Plans.{row_at, IsOperation, AreShaped};
ghost use Rattle.bb_shop.specs.Verdicts.{Overlap, IsVerdict};
ghost use Rattle.bb_shop.specs.Judging.{Finds, FindsOperation, FindsPair, times_at, AreTimed, IsEarlyIn, IsEarlyAt};
ghost use Rattle.bb_shop.specs.Judging.{OverlapsIn, OverlapsFrom};

use crate::booking::Booking;
use crate::makespan::makespan_of;
use crate::operation_id::{OperationId, Pair};
use crate::verdict::ShopVerdict;
use inst_text::{Jobs, Operation, Starts};

/// The verdict on these start times and the makespan that is stated for them. It takes no memory, and compares
/// each two operations at most once: O(n²) for n operations.
pub fn judged(jobs: &Jobs, starts: &Starts, stated: u32) -> ShopVerdict
    requires { AreShaped jobs.now starts.now }
    ensures { IsVerdict jobs.now starts.now stated result }
{
    if let Some(early) = first_early(jobs, starts) {
        return ShopVerdict::BadOrder {
            job: early.job as u32,
            step: early.step as u32,
        };
    }
    if let Some(pair) = first_overlap(jobs, starts) {
        return ShopVerdict::BadMachine {
            job: pair.one.job as u32,
            step: pair.one.step as u32,
            other: pair.other.job as u32,
            other_step: pair.other.step as u32,
        };
    }
    let makespan = makespan_of(jobs, starts);
    if makespan != stated {
        return ShopVerdict::BadMakespan(makespan);
    }
    ShopVerdict::Feasible
}

// The operations of this job. Constant time.
fn row_of(jobs: &Jobs, job: usize) -> &[Operation]
    requires { job < length jobs.now.rows }
    ensures row { result.now ≡ row_at jobs.now.rows job }
    ensures within_limits { IsJobShop jobs.now }
{
    jobs.rows[job].as_slice()
}

// The start times of this job's operations. Constant time.
fn times_of(starts: &Starts, job: usize) -> &[u32]
    requires { job < length starts.now }
    ensures times { result.now ≡ times_at starts.now job }
    ensures within_limits { AreStarts starts.now }
{
    starts.rows[job].as_slice()
}

// The first step of the row whose operation starts before the end of the one before it. One pass.
fn early_in(row: &[Operation], times: &[u32]) -> Option<usize>
    requires { AreTimed row.now times.now }
    ensures { Finds (IsEarlyIn row.now times.now) result }
{
    let mut ready = 0;
    for (step, operation) in row.iter().enumerate() {
        let start = times[step];
        if start < ready {
            return Some(step);
        }
        ready = start + operation.time;
    }
    None
}

// The first operation, by job and step, that starts before the end of the one before it in its job. One pass.
fn first_early(jobs: &Jobs, starts: &Starts) -> Option<OperationId>
    requires { AreShaped jobs.now starts.now }
    ensures first { FindsOperation (IsEarlyAt jobs.now starts.now) result }
    ensures within_limits { IsJobShop jobs.now }
{
    for job in 0..jobs.rows.len() {
        if let Some(step) = early_in(row_of(jobs, job), times_of(starts, job)) {
            return Some(OperationId { job, step });
        }
    }
    None
}

// The first step of the row, from this one on, whose operation overlaps with the booking. One pass.
fn overlap_in(booking: Booking, row: &[Operation], times: &[u32], from: usize) -> Option<usize>
    requires { AreTimed row.now times.now }
    ensures { Finds (OverlapsIn booking row.now times.now from) result }
{
    for step in from..row.len() {
        if booking.collides(Booking::new(row[step], times[step])) {
            return Some(step);
        }
    }
    None
}

// The first later operation, by job and step, that overlaps with this one on its machine. One pass.
fn overlap_after(jobs: &Jobs, starts: &Starts, job: usize, step: usize) -> Option<OperationId>
    requires shaped { AreShaped jobs.now starts.now }
    requires operation { IsOperation jobs.now job step }
    ensures { FindsOperation (Overlap jobs.now starts.now job step) result }
{
    let booking = Booking::new(row_of(jobs, job)[step], times_of(starts, job)[step]);
    for later in job..jobs.rows.len() {
        let from = if later == job { step + 1 } else { 0 };
        let row = row_of(jobs, later);
        if let Some(other) = overlap_in(booking, row, times_of(starts, later), from) {
            return Some(OperationId {
                job: later,
                step: other,
            });
        }
    }
    None
}

// The first two operations that overlap on a machine, the one of this job. A pass for each step.
fn overlap_of(jobs: &Jobs, starts: &Starts, job: usize) -> Option<Pair>
    requires shaped { AreShaped jobs.now starts.now }
    requires job { job < length jobs.now.rows }
    ensures { FindsPair (OverlapsFrom jobs.now starts.now job) result }
{
    for step in 0..row_of(jobs, job).len() {
        if let Some(other) = overlap_after(jobs, starts, job, step) {
            let one = OperationId { job, step };
            return Some(Pair { one, other });
        }
    }
    None
}

// The first two operations, by job and step of the one and then of the other, that overlap on a machine. A pass
// for each operation.
fn first_overlap(jobs: &Jobs, starts: &Starts) -> Option<Pair>
    requires { AreShaped jobs.now starts.now }
    ensures { FindsPair (Overlap jobs.now starts.now) result }
{
    for job in 0..jobs.rows.len() {
        if let Some(pair) = overlap_of(jobs, starts, job) {
            return Some(pair);
        }
    }
    None
}
