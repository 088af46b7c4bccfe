//! Walks through the trees of worked shops.

use bb_problem::{Problem, Step};
use bb_shop::{Shop, ShopNode};
use inst_text::{read_shop, write_starts};
use pq_io::NoMemory;
use std::alloc::Global;
use std::test::Fail;

// The node come to by the children at these places. None where there is no such child.
fn come_to(alloc: Global, shop: &Shop, places: &[usize]) -> Result<Option<ShopNode>, NoMemory> {
    let mut node = shop.root(alloc)?;
    for place in places {
        let Step::Branch(mut nodes) = shop.expand(alloc, node)? else {
            return Ok(None);
        };
        if *place >= nodes.len() {
            return Ok(None);
        }
        node = nodes.swap_remove(*place);
    }
    Ok(Some(node))
}

// The text of a node's plan, and of a node with children nothing.
fn printed(alloc: Global, shop: &Shop, node: ShopNode) -> Result<Vec<u8>, NoMemory> {
    match shop.expand(alloc, node)? {
        Step::Leaf(starts) => write_starts(alloc, shop.cost(&starts), &starts),
        Step::Branch(_) => Ok(Vec::new(alloc)),
    }
}

// ft06 (H. Fisher and G. L. Thompson, 1963)
const SIX: &str = "6 6
2 1 0 3 1 6 3 7 5 3 4 6
1 8 2 5 4 10 5 10 0 10 3 4
2 5 3 4 5 8 0 9 1 1 4 7
1 5 0 5 2 5 3 3 4 8 5 9
2 9 1 3 4 5 5 4 0 3 3 1
1 3 3 3 5 9 0 10 4 4 2 1
";

const THREE: &str = "3 3\n0 3 1 2 2 2\n0 2 2 1 1 4\n1 4 2 3 0 0\n";

// A shop, the places of children, the bounds of the root and of the node come to, and the text of its plan.
type Row = (&'static str, &'static [usize], u32, u32, &'static str);

const ROWS: [Row; 4] = [
    (SIX, &[], 52, 52, ""),
    // the jobs 1 2 0 1 0 1 2 0 2
    (
        THREE,
        &[1, 2, 0, 1, 0, 1, 1, 0, 0],
        10,
        11,
        "makespan 11\n2 5 7\n0 2 7\n0 4 7\n",
    ),
    // Machine 0 is needed for 3, 4 and 5. Where job 1 goes first, it is on machine 0 from 2 to 7, and job 0 ends at 14.
    ("2 2\n0 3 0 4\n1 2 0 5\n", &[1, 1], 12, 14, ""),
    ("1 1\n0 0\n", &[0], 0, 0, "makespan 0\n0\n"),
];

#[test]
fn walks_to_nodes_and_plans(rt: HostRuntime) -> Result<(), Fail> {
    let alloc = rt.alloc();
    for (text, places, root_bound, bound, plan) in ROWS {
        let shop = Shop::new(alloc, read_shop(alloc, text.as_bytes())?)?;
        assert_eq!(rt; shop.root_bound(), root_bound, "at {text}");
        let Some(node) = come_to(alloc, &shop, places)? else {
            assert!(rt; false, "at {text}");
            return Ok(());
        };
        assert_eq!(rt; node.order().len(), places.len(), "at {text}");
        assert_eq!(rt; shop.bound(&node), bound, "at {text}");
        let printed = printed(alloc, &shop, node)?;
        assert_eq!(rt; printed.as_slice(), plan.as_bytes(), "at {text}");
    }
    Ok(())
}
