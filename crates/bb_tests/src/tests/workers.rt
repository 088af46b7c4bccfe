//! Searches by 1, 2, 4 and 16 workers.

ghost use Rattle.std.specs.Prelude.{◌≤◌};
ghost use Rattle.pq_model.specs.Limits.{max_seats, max_capacity};
ghost use Rattle.bb_pool.specs.Limits.{max_nodes};

use bb_knap::Knapsack;
use bb_pool::{Outcome, search, search_plain};
use bb_problem::Problem;
use bb_shop::Shop;
use inst_text::{make_knapsack, make_shop, read_knapsack};
use pq_api::{Gate, Hold, Open, Pair, PlainQueue, Point, SharedQueue};
use pq_hunt::HuntHeap;
use pq_io::NoMemory;
use std::alloc::Global;
use std::sync::Wait;
use std::test::Fail;
use std::thread::Threads;

const WORKERS: [u32; 4] = [1, 2, 4, 16];

// A node limit and a capacity that no search here comes near to.
const NODES: u32 = 60_000;

const CAPACITY: u32 = 60_016;

// A wait of a held worker ends after so many turns, so that no test hangs.
const TURNS: u32 = 10_000_000;

// How a search by so many workers ends over a new heap of this capacity, under this node limit.
fn searched<R: Threads + Wait + Sync, P: Problem, G: Gate>(
    rt: &R,
    alloc: Global,
    problem: &P,
    workers: u32,
    capacity: u32,
    nodes: u32,
    gate: &G,
) -> Result<Outcome<P::Plan>, NoMemory>
    requires workers { (1 ≤ workers) × (workers ≤ max_seats) }
    requires capacity { (workers ≤ capacity) × (capacity ≤ max_capacity) }
    requires nodes { (1 ≤ nodes) × (nodes ≤ max_nodes) }
{
    let (queue, passes) = HuntHeap::open(alloc, capacity, workers, Open)?;
    Ok(search(rt, alloc, problem, queue, passes, nodes, gate))
}

// The cost of the best plan, where there is one.
fn cost_of<P: Drop>(outcome: Outcome<P>) -> Option<u32> {
    match outcome {
        Outcome::Best { plan: _, cost } => Some(cost),
        _ => None,
    }
}

// The cost of the best plan by the search with one caller.
fn plain_cost<P: Problem>(alloc: Global, problem: &P) -> Result<Option<u32>, NoMemory> {
    let (_queue, mut passes) = PlainQueue::open(alloc, CAPACITY, 1, Open)?;
    let Some(pass) = passes.pop() else {
        return Ok(None);
    };
    Ok(cost_of(search_plain(alloc, problem, pass, NODES)))
}

fn knapsack(alloc: Global, text: &str) -> Result<Knapsack, Fail> {
    let items = read_knapsack(alloc, text.as_bytes())?;
    Ok(Knapsack::new(alloc, items)?)
}

const THREE: &str = "3 5\n2 3\n3 4\n4 5\n";

const TEN: &str = "10 165\n23 92\n31 57\n29 49\n44 68\n53 60\n38 43\n63 67\n85 84\n89 87\n82 72\n";

// Instances and their best values, from the collection of knapsacks by J. Burkardt but for the first. What a plan costs
// is the value of the items that it leaves out.
#[test]
fn finds_the_best_value_that_is_known(rt: HostRuntime) -> Result<(), Fail> {
    let alloc = rt.alloc();
    for (text, value) in [
        (THREE, 7_u32),
        (TEN, 309),
        ("5 26\n12 24\n7 13\n11 23\n8 15\n9 16\n", 51),
        ("6 190\n56 50\n59 50\n80 64\n64 46\n75 50\n17 5\n", 150),
        ("7 50\n31 70\n10 20\n20 39\n19 37\n4 7\n3 5\n6 10\n", 107),
        (
            "8 104\n25 350\n35 400\n45 450\n5 20\n25 70\n3 8\n2 5\n2 5\n",
            900,
        ),
        (
            "7 170\n41 442\n50 525\n49 511\n59 593\n55 546\n57 564\n60 617\n",
            1735,
        ),
        (
            "15 750\n70 135\n73 139\n77 149\n80 150\n82 156\n87 163\n90 173\n94 184\n98 192\n\
            106 201\n110 210\n113 214\n115 221\n118 229\n120 240\n",
            1458,
        ),
    ] {
        let knapsack = knapsack(alloc, text)?;
        for workers in WORKERS {
            let outcome = searched(&rt, alloc, &knapsack, workers, CAPACITY, NODES, &Open)?;
            let Some(cost) = cost_of(outcome) else {
                panic!(rt; "there is room")
            };
            let total = u64::from(cost) + u64::from(value);
            assert_eq!(rt;
                total,
                u64::from(knapsack.total_value()),
                "{workers} at {text}"
            );
        }
    }
    Ok(())
}

#[test]
fn finds_what_one_caller_finds(rt: HostRuntime) -> Result<(), Fail> {
    let alloc = rt.alloc();
    for seed in 1..5 {
        let knapsack = Knapsack::new(alloc, make_knapsack(alloc, seed, 14)?)?;
        let shop = Shop::new(alloc, make_shop(alloc, seed, 3)?)?;
        let least = (plain_cost(alloc, &knapsack)?, plain_cost(alloc, &shop)?);
        assert!(rt; least.0.is_some() && least.1.is_some());
        for workers in WORKERS {
            let value = searched(&rt, alloc, &knapsack, workers, CAPACITY, NODES, &Open)?;
            let makespan = searched(&rt, alloc, &shop, workers, CAPACITY, NODES, &Open)?;
            assert_eq!(rt; (cost_of(value), cost_of(makespan)), least);
        }
    }
    Ok(())
}

// The second node that is taken is held until a third is, and that is another worker's.
#[test]
fn two_workers_hold_nodes_at_once(rt: HostRuntime) -> Result<(), Fail> {
    let three = knapsack(rt.alloc(), THREE)?;
    let pair = Pair::new(Point::WorkerNode, 1, TURNS);
    let outcome = searched(&rt, rt.alloc(), &three, 2, 64, 64, &pair)?;
    assert_eq!(rt; cost_of(outcome), Some(5));
    assert!(rt; pair.met());
    Ok(())
}

// The root is held, until its turns are over. The others find nothing meanwhile, and go on all the same.
#[test]
fn the_others_wait_for_a_worker_that_is_held(rt: HostRuntime) -> Result<(), Fail> {
    let ten = knapsack(rt.alloc(), TEN)?;
    for workers in WORKERS {
        let hold = Hold::new(Point::WorkerNode, 10_000);
        let outcome = searched(&rt, rt.alloc(), &ten, workers, CAPACITY, NODES, &hold)?;
        assert_eq!(rt; cost_of(outcome), Some(370));
        assert!(rt; hold.held() && hold.spent());
    }
    Ok(())
}

// The root's two children are the first that are too many. Where there is room for more nodes, it depends on the steps
// of the workers which are.
#[test]
fn stops_at_low_limits(rt: HostRuntime) -> Result<(), Fail> {
    let ten = knapsack(rt.alloc(), TEN)?;
    for workers in WORKERS {
        for nodes in [1, 2] {
            let outcome = searched(&rt, rt.alloc(), &ten, workers, CAPACITY, nodes, &Open)?;
            let Outcome::NodeLimit { asked, limit } = outcome else {
                panic!(rt; "the root has two children")
            };
            assert_eq!(rt; (asked, limit), (3, nodes));
        }
        let outcome = searched(&rt, rt.alloc(), &ten, workers, CAPACITY, 12, &Open)?;
        let Outcome::NodeLimit { asked, limit } = outcome else {
            panic!(rt; "more than twelve nodes have to be made")
        };
        assert!(rt; asked > 12 && limit == 12);
    }
    Ok(())
}

// Where the first leaf is come to, six nodes at least are open, and no worker holds more than one.
#[test]
fn finds_a_small_heap_full(rt: HostRuntime) -> Result<(), Fail> {
    let ten = knapsack(rt.alloc(), TEN)?;
    for workers in [1, 2] {
        let outcome = searched(&rt, rt.alloc(), &ten, workers, workers, NODES, &Open)?;
        assert!(rt;
            matches!(outcome, Outcome::Full { place } if place > 1),
            "{workers}"
        );
    }
    Ok(())
}
