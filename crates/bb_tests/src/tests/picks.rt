//! The search with one caller, and the one with one worker, on a small problem.

ghost use Rattle.std.specs.Prelude.{◌≤◌};
ghost use Rattle.pq_model.specs.Limits.{max_capacity};
ghost use Rattle.bb_pool.specs.Limits.{max_nodes};
ghost use Rattle.bb_tests.specs.Picks.{meaning, lawful};

use bb_pool::{MAX_NODES, Outcome, search, search_plain};
use bb_problem::{Problem, Step};
use pq_api::{Gate, Open, PlainQueue, Point, SharedQueue};
use pq_io::NoMemory;
use pq_model::MAX_CAPACITY;
use std::alloc::Global;
use std::sync::Wait;
use std::sync::atomic::{AtomicU32, Ordering};
use std::test::Fail;
use std::thread::Threads;

// A root with three leaves. Each plan costs 4.
struct Picks;

impl Problem for Picks {
    type Node = bool;

    type Plan = u8;

    ghost is_problem = { λ _. Unit {0} };

    ghost meaning = { λ _. meaning };

    fn root(&self, _alloc: Global) -> Result<bool, NoMemory> {
        Ok(true)
    }

    fn bound(&self, _node: &bool) -> u32 {
        4
    }

    #[tactic(auto, using(crate::specs::Picks::root_expands))]
    fn expand(&self, alloc: Global, node: bool) -> Result<Step<u8, bool>, NoMemory> {
        if node {
            Ok(Step::Branch(Vec::from_array(alloc, [false, false, false])?))
        } else {
            Ok(Step::Leaf(9))
        }
    }

    fn cost(&self, _plan: &u8) -> u32 {
        4
    }

    ghost lawful = { λ p valid. lawful };
}

// How a search on a fresh queue of this capacity ends, under this node limit.
fn searched(alloc: Global, capacity: u32, nodes: u32) -> Result<String, NoMemory>
    requires capacity { (1 ≤ capacity) × (capacity ≤ max_capacity) }
    requires nodes { (1 ≤ nodes) × (nodes ≤ max_nodes) }
{
    let (_queue, mut passes) = PlainQueue::open(alloc, capacity, 1, Open)?;
    let outcome = match passes.pop() {
        Some(pass) => search_plain(alloc, &Picks, pass, nodes),
        None => Outcome::NoMemory,
    };
    Ok(format!(in alloc; "{outcome:?}")?)
}

// How the search with one worker ends over the same queue, and how many nodes it told the gate.
fn searched_by_one<R: Threads + Wait + Sync>(
    rt: &R,
    alloc: Global,
    capacity: u32,
    nodes: u32,
) -> Result<(String, u32), NoMemory>
    requires capacity { (1 ≤ capacity) × (capacity ≤ max_capacity) }
    requires nodes { (1 ≤ nodes) × (nodes ≤ max_nodes) }
{
    let (queue, passes) = PlainQueue::open(alloc, capacity, 1, Open)?;
    let told = Told(AtomicU32::new(0));
    let outcome = search(rt, alloc, &Picks, queue, passes, nodes, &told);
    Ok((
        format!(in alloc; "{outcome:?}")?,
        told.0.load(Ordering::SeqCst),
    ))
}

// Counts the nodes that a search has taken.
#[derive(Drop)]
struct Told(AtomicU32);

impl Gate for Told {
    fn at<R: Wait + Sync>(&self, _rt: &R, point: Point) {
        if point == Point::WorkerNode {
            self.0.fetch_add(1, Ordering::SeqCst);
        }
    }
}

const BEST: &str = "Best { plan: 9, cost: 4 }";

// The root and its three leaves are four nodes, and the three leaves are open at once. Where the search comes to the
// leaves, it takes one of them: the others are not below its plan's cost.
#[test]
fn both_end_as_said_on_both_sides_of_each_limit(rt: HostRuntime) -> Result<(), Fail> {
    for (capacity, nodes, wanted, taken) in [
        (3, 4, BEST, 2),
        (MAX_CAPACITY, MAX_NODES, BEST, 2),
        (4, 3, "NodeLimit { asked: 4, limit: 3 }", 1),
        (1, 1, "NodeLimit { asked: 4, limit: 1 }", 1),
        (2, 4, "Full { place: 4 }", 1),
        (1, 4, "Full { place: 3 }", 1),
    ] {
        assert_eq!(rt; searched(rt.alloc(), capacity, nodes)?.as_str(), wanted);
        let (by_one, told) = searched_by_one(&rt, rt.alloc(), capacity, nodes)?;
        assert_eq!(rt; (by_one.as_str(), told), (wanted, taken));
    }
    Ok(())
}
