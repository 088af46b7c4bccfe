//! Small shops by both branchings.

use bb_onemach::ActiveShop;
use bb_problem::{Problem, Step};
use bb_shop::Shop;
use inst_text::read_shop;
use pq_io::NoMemory;
use std::alloc::Global;
use std::test::Fail;

// After so many nodes a walk gives up.
const TURNS: usize = 20_000;

// The least cost of a leaf under the root, and how many leaves there are. None where there are too many nodes.
fn leaves<P: Problem>(alloc: Global, problem: &P) -> Result<Option<(u32, u32)>, NoMemory> {
    let mut open = Vec::new(alloc);
    open.push(problem.root(alloc)?)?;
    let mut least = u32::MAX;
    let mut count = 0u32;
    for _ in 0..TURNS {
        let Some(node) = open.pop() else {
            return Ok(Some((least, count)));
        };
        match problem.expand(alloc, node)? {
            Step::Leaf(plan) => {
                least = least.min(problem.cost(&plan));
                count = count.saturating_add(1);
            }
            Step::Branch(mut nodes) => open.append(&mut nodes)?,
        }
    }
    Ok(None)
}

// A shop with its least makespan, the bound of its root, and how many leaves dispatching and active branching have. The
// makespans come from an enumeration of the orders of each machine's operations, the numbers from another program.
type Row = (&'static str, u32, u32, u32, u32);

const ROWS: [Row; 7] = [
    ("1 1\n0 0\n", 0, 0, 1, 1),
    // a machine that is needed twice by one job, and operations without time
    ("2 2\n0 2 0 3\n0 1 1 4\n", 6, 6, 6, 3),
    ("2 2\n0 0 1 3\n1 2 0 0\n", 5, 5, 6, 2),
    ("4 1\n0 2\n0 2\n0 0\n0 1\n", 5, 5, 24, 6),
    // a machine that no job needs
    ("3 2\n0 0 0 0\n0 4 0 0\n0 2 0 3\n", 9, 9, 90, 3),
    (
        "3 3\n0 3 1 2 2 2\n0 2 2 1 1 4\n1 4 2 3 0 0\n",
        11,
        10,
        1_680,
        13,
    ),
    // two operations of machine 1 with head 5, time 5 and tail 5
    (
        "3 3\n0 5 1 5 2 5\n2 5 1 5 0 5\n1 1 0 0 2 0\n",
        20,
        20,
        1_680,
        6,
    ),
];

#[test]
fn both_branchings_end_at_the_least_makespan(rt: HostRuntime) -> Result<(), Fail> {
    let alloc = rt.alloc();
    for (text, least, bound, dispatched, active) in ROWS {
        let shop = ActiveShop::new(alloc, read_shop(alloc, text.as_bytes())?)?;
        assert_eq!(rt; shop.root_bound(), bound, "at {text}");
        assert_eq!(rt; shop.bound(&shop.root(alloc)?), bound, "at {text}");
        assert_eq!(rt; leaves(alloc, &shop)?, Some((least, active)), "at {text}");
        assert_eq!(rt;
            leaves(alloc, shop.shop())?,
            Some((least, dispatched)),
            "at {text}"
        );
    }
    Ok(())
}
