//! The jobs that compete at a node.
ghost use Rattle.std.specs.Prelude.{◌≡◌, ◌≤◌, nat_eq, nat_lt, ◌&&◌, ◌||◌, length, All};
ghost use Rattle.bb_shop.specs.Working.{FitTo, IsLeftAt, next_at, left_in};
ghost use Rattle.bb_onemach.specs.Branching.{critical, competing};

use bb_shop::{Booking, Shop, ShopNode, SomeJobs};

// Of these jobs, the one whose next operation could end first, and the first of them on a tie. One pass.
fn critical(shop: &Shop, node: &ShopNode, jobs: &[u8]) -> usize
    requires fit { FitTo shop.now node.now.steps node.now.jobs node.now.machines }
    requires left { All (IsLeftAt shop.now node.now) jobs.now }
    requires some { 1 ≤ length jobs.now }
    ensures critical { result ≡ critical (next_at shop.now node.now) jobs.now }
    ensures left { IsLeftAt shop.now node.now result }
{
    let mut critical = usize::from(jobs[0]);
    let mut soonest = shop.next(node, critical);
    for job in jobs {
        let next = shop.next(node, usize::from(*job));
        if next.end < soonest.end {
            critical = usize::from(*job);
            soonest = next;
        }
    }
    critical
}

// Tells whether a job is the critical one, or its next operation needs the same machine and starts before that one
// ends.
fn competes(job: usize, critical: usize, next: Booking, soonest: Booking) -> bool
    ensures { result ≡ (nat_eq job critical || (nat_eq next.machine soonest.machine && nat_lt next.start soonest.end)) }
{
    job == critical || (next.machine == soonest.machine && next.start < soonest.end)
}

/// The jobs that compete at a node for the machine of the operation that could end first, that one's job among them,
/// in order. None where no operation is left. O(n) in the number of jobs.
pub fn competing(shop: &Shop, node: &ShopNode) -> SomeJobs
    requires { FitTo shop.now node.now.steps node.now.jobs node.now.machines }
    ensures jobs { result.items ≡ competing (next_at shop.now node.now) (left_in shop.now.machines node.now.steps) }
    ensures left { All (IsLeftAt shop.now node.now) result.items }
{
    let left = shop.jobs_left(node);
    let mut jobs = SomeJobs::new();
    if left.is_empty() {
        return jobs;
    }
    let critical = critical(shop, node, left.as_slice());
    let soonest = shop.next(node, critical);
    for job in left.as_slice() {
        let next = shop.next(node, usize::from(*job));
        if competes(usize::from(*job), critical, next, soonest) {
            jobs.push(*job);
        }
    }
    jobs
}
