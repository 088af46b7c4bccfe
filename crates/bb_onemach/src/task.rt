//! What a machine still has to do, and what it takes at least.
ghost use Rattle.std.specs.Prelude.{◌≡◌, ◌≤◌, ◌<◌, ◌+◌, ◌*◌, All, AllPairs, length, map, filter, take};
ghost use Rattle.inst_text.specs.Limits.{max_total};
ghost use Rattle.bb_onemach.specs.Visits.{is_left};
ghost use Rattle.bb_onemach.specs.Thresholds.{one_machine_bound};
ghost use Rattle.bb_onemach.specs.Working.{swept, AreSmall, Falls, IsPlaced, task_by};

use crate::visit::Visit;

/// An operation that is left on a machine: when it starts at the earliest, how long it takes, and the sum of the
/// times after it in its job.
#[derive(Clone, Copy, Debug)]
pub struct Task {
    pub head: u32,
    pub time: u32,
    pub tail: u32,
}

/// A task that takes no time, to fill a table with.
pub const NO_TASK: Task = Task {
    head: 0,
    time: 0,
    tail: 0,
};

/// Puts what is left of a machine's operations into the table, in order, and gives how many there are. The heads are
/// in a table by job and step. One pass.
pub fn put_tasks(
    row: &[Visit],
    steps: &[u8],
    heads: &[u32],
    machines: usize,
    tasks: &mut [Task],
) -> usize
    requires places { length row.now ≤ length tasks.old }
    requires placed { All (IsPlaced machines steps.now heads.now) row.now }
    ensures count { result ≤ length tasks.new }
    ensures tasks { take result tasks.new ≡ map (task_by machines heads.now) (filter (is_left steps.now) row.now) }
    ensures length { length tasks.new ≡ length tasks.old }
{
    let mut count = 0;
    for visit in row {
        let job = visit.job as usize;
        if (steps[job] as u32) <= visit.step {
            tasks[count] = Task {
                head: heads[job * machines + visit.step as usize],
                time: visit.time,
                tail: visit.tail,
            };
            count += 1;
        }
    }
    count
}

// The greatest of the sums of this head, of the times of the tasks so far with no lower head, and of the tail of the
// last of them. One pass.
fn sweep(tasks: &[Task], head: u32) -> u32
    requires small { AreSmall tasks.now }
    requires head { head ≤ 2 * max_total }
    ensures { result ≡ swept head 0 tasks.now }
{
    let mut time = 0;
    let mut bound = 0;
    for task in tasks {
        if head <= task.head {
            time += task.time;
            bound = (head + time + task.tail).max(bound);
        }
    }
    bound
}

/// The least that a machine's tasks take, which stand by falling tails: for each head and each tail of them, the least
/// head, the sum of the times and the least tail of those whose heads and tails are no less, and of these the greatest.
/// A pass for each task.
pub fn one_machine_bound(tasks: &[Task]) -> u32
    requires small { AreSmall tasks.now }
    requires falls { Falls tasks.now }
    ensures { result ≡ one_machine_bound tasks.now }
{
    let mut bound = 0;
    for task in tasks {
        bound = sweep(tasks, task.head).max(bound);
    }
    bound
}
