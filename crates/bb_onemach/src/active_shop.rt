//! The job shop as it is branched actively, and its calls.
ghost use Rattle.std.specs.Prelude.{ℕ, ◌≡◌, ◌≤◌, length, map, All, IfOk};
ghost use Rattle.inst_text.specs.Limits.{max_operations};
ghost use Rattle.inst_text.specs.Shop.{IsJobShop, operations};
ghost use Rattle.bb_shop.specs.Working.{FitTo};
ghost use Rattle.bb_onemach.specs.Bounds.{bound_by, root_bound};
ghost use Rattle.bb_onemach.specs.Working.{AreRows};

use crate::heads::write_all_heads;
use crate::task::{NO_TASK, Task, one_machine_bound, put_tasks};
use crate::visit::{Visit, all_visits};
use bb_shop::{Shop, greatest_of};
use inst_text::{Jobs, MAX_JOBS, MAX_MACHINES, MAX_OPERATIONS};
use pq_io::NoMemory;
use std::alloc::Global;
use std::marker::Model;

// How many operations the smallest table of heads has room for.
const FEW_OPERATIONS: usize = 64;

// How many the middle one has room for.
const SOME_OPERATIONS: usize = 256;

// How many tasks the smaller table of one machine's tasks has room for.
const FEW_TASKS: usize = 16;

// How many the greatest table of either kind has room for: all operations of a shop.
const MOST_OPERATIONS: usize = MAX_OPERATIONS as usize;

/// The job-shop problem: when to start each operation of some jobs, so that the last one ends early. A node
/// branches on jobs that compete for one machine alone, and is bounded by what each machine still has to do.
///
/// Beside the shop it keeps the operations of each machine, by falling tails.
#[derive(Debug, Drop)]
pub struct ActiveShop {
    shop: Shop,
    rows: Vec<Vec<Visit>>,
}

impl Model for ActiveShop {
    ghost use Rattle.std.specs.Prelude.{map};
    ghost use Rattle.inst_text.specs.Shop.{JobShop};
    ghost use Rattle.bb_onemach.specs.Working.{AreRows};

    ghost Value = { JobShop };

    ghost view = { λ s. s.shop };

    ghost invariant = { λ s. AreRows s.shop (map (λ row. row.items) s.rows.items) };
}

impl ActiveShop {
    /// The problem of these jobs. O(m n log n) for n operations and m machines.
    pub fn new(alloc: Global, jobs: Jobs) -> Result<ActiveShop, NoMemory>
        ensures { IfOk result (λ s. s ≡ jobs) }
    {
        let shop = Shop::new(alloc, jobs)?;
        let rows = all_visits(alloc, &shop)?;
        Ok(ActiveShop { shop, rows })
    }

    /// The shop. Constant time.
    pub fn shop(&self) -> &Shop
        ensures shop { result.now ≡ self.now }
    {
        &self.shop
    }

    /// The least makespan that the bound of the root allows, at most `MAX_TOTAL`: the greatest of the jobs' times and,
    /// over the machines, of what their operations take at least (J. Carlier, The one-machine sequencing problem,
    /// 1982). It takes no memory.
    pub fn root_bound(&self) -> u32
        ensures { result ≡ root_bound self.now }
    {
        let jobs = self.shop.job_count();
        let machines = self.shop.machine_count();
        let steps = [0u8; (MAX_JOBS + MAX_MACHINES) as usize];
        let times = [0u32; (MAX_JOBS + MAX_MACHINES) as usize];
        self.bound_by(&steps[..jobs], &times[..jobs], &times[..machines])
    }

    /// The bound of a node with these next steps and ready times. One pass over the operations, and for each machine a
    /// pass over its tasks for each of them.
    pub(crate) fn bound_by(&self, steps: &[u8], jobs: &[u32], machines: &[u32]) -> u32
        requires { FitTo self.now steps.now jobs.now machines.now }
        ensures { result ≡ bound_by self.now steps.now jobs.now machines.now }
    {
        // Small tables are set up faster, and are enough for most shops.
        let rows = self.rows.as_slice();
        let operations = self.shop.job_count() * self.shop.machine_count();
        let few_tasks = rows.iter().all(|row| row.len() <= FEW_TASKS);
        if operations <= FEW_OPERATIONS && few_tasks {
            bound_with::<FEW_OPERATIONS, FEW_TASKS>(&self.shop, rows, steps, jobs, machines)
        } else if operations <= SOME_OPERATIONS && few_tasks {
            bound_with::<SOME_OPERATIONS, FEW_TASKS>(&self.shop, rows, steps, jobs, machines)
        } else {
            bound_with::<MOST_OPERATIONS, MOST_OPERATIONS>(&self.shop, rows, steps, jobs, machines)
        }
    }
}

// The bound of a node, with tables of so many heads and so many tasks. A function clears all of its tables when it is
// entered, so each size has a function of its own.
fn bound_with<const HEADS: usize, const TASKS: usize>(
    shop: &Shop,
    rows: &[Vec<Visit>],
    steps: &[u8],
    jobs: &[u32],
    machines: &[u32],
) -> u32
    requires rows { AreRows shop.now (map (λ row. row.items) rows.now) }
    requires fit { FitTo shop.now steps.now jobs.now machines.now }
    requires heads { operations shop.now ≤ HEADS }
    requires tasks { All (λ row. length row.items ≤ TASKS) rows.now }
    requires few { (HEADS ≤ max_operations) × (TASKS ≤ max_operations) }
    ensures { result ≡ bound_by shop.now steps.now jobs.now machines.now }
{
    let (mut heads, mut tasks) = ([0; HEADS], [NO_TASK; TASKS]);
    bound_over(shop, rows, steps, jobs, machines, &mut heads, &mut tasks)
}

// The bound of a node, with a table that has room for each operation's head and one for each machine's tasks.
fn bound_over(
    shop: &Shop,
    rows: &[Vec<Visit>],
    steps: &[u8],
    jobs: &[u32],
    machines: &[u32],
    heads: &mut [u32],
    tasks: &mut [Task],
) -> u32
    requires rows { AreRows shop.now (map (λ row. row.items) rows.now) }
    requires fit { FitTo shop.now steps.now jobs.now machines.now }
    requires heads { operations shop.now ≤ length heads.old }
    requires tasks { All (λ row. length row.items ≤ length tasks.old) rows.now }
    ensures { result ≡ bound_by shop.now steps.now jobs.now machines.now }
{
    let finish = write_all_heads(shop, steps, jobs, machines, heads);
    let mut bound = finish.max(greatest_of(machines));
    for row in rows {
        let put = put_tasks(row.as_slice(), steps, heads, shop.machine_count(), tasks);
        bound = one_machine_bound(&tasks[..put]).max(bound);
    }
    bound
}
