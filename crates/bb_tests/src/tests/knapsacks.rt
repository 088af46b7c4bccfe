//! Small knapsacks by hand, and the greatest.

use bb_knap::{KnapNode, KnapWalk, Knapsack};
use bb_problem::{Problem, Step};
use inst_text::{Choice, read_knapsack, read_plan_knapsack};
use pq_io::NoMemory;
use std::alloc::Global;
use std::test::Fail;

const THREE: &str = "3 5\n2 3\n3 4\n4 5\n";

fn knapsack(alloc: Global, text: &str) -> Result<Knapsack, Fail> {
    let items = read_knapsack(alloc, text.as_bytes())?;
    Ok(Knapsack::new(alloc, items)?)
}

#[test]
fn knows_its_instance(rt: HostRuntime) -> Result<(), Fail> {
    let alloc = rt.alloc();
    let text = format!(in alloc; "{THREE}value 8\nitems 0 2\n")?;
    let (items, claimed) = read_plan_knapsack(alloc, text.as_bytes())?;
    let three = Knapsack::new(alloc, items)?;
    assert_eq!(rt; three.capacity(), 5);
    assert_eq!(rt; three.items().len(), 3);
    assert_eq!(rt; three.total_value(), 12);
    assert_eq!(rt; three.value_of(&claimed.plan), 8);
    assert_eq!(rt; three.cost(&claimed.plan), 4);
    Ok(())
}

#[test]
fn judges_choices(rt: HostRuntime) -> Result<(), Fail> {
    let alloc = rt.alloc();
    let rows = [
        ("value 7\nitems 0 1\n", "feasible"),
        ("value 7\nitems 0 2\n", "bad weight 6"),
        ("value 8\nitems 0 1\n", "bad value 7"),
    ];
    for (plan, verdict) in rows {
        let text = format!(in alloc; "{THREE}{plan}")?;
        let (items, claimed) = read_plan_knapsack(alloc, text.as_bytes())?;
        let found = Knapsack::new(alloc, items)?.judge(&claimed.plan, claimed.stated);
        assert_eq!(rt; format!(in alloc; "{found}")?.as_str(), verdict);
    }
    Ok(())
}

#[test]
fn orders_items_and_bounds_them(rt: HostRuntime) -> Result<(), Fail> {
    let rows = [
        (THREE, [0, 1, 2].as_slice(), 7),
        ("4 7\n5 10\n0 1\n3 9\n0 7\n", [1, 3, 2, 0].as_slice(), 25),
        ("0 0\n", [].as_slice(), 0),
    ];
    for (text, order, bound) in rows {
        let knapsack = knapsack(rt.alloc(), text)?;
        assert_eq!(rt; knapsack.order(), order, "at {text}");
        assert_eq!(rt; knapsack.root_bound(), bound, "at {text}");
    }
    Ok(())
}

// the bounds of a node's children, none of a leaf
fn bounds(
    alloc: Global,
    knapsack: &Knapsack,
    node: KnapNode,
    children: &mut Vec<KnapNode>,
) -> Result<Vec<u32>, NoMemory> {
    let mut bounds = Vec::new(alloc);
    if knapsack.expand_into(alloc, node, children)?.is_none() {
        for node in children.as_slice() {
            bounds.push(knapsack.bound(node))?;
        }
    }
    Ok(bounds)
}

#[test]
fn branches_and_walks(rt: HostRuntime) -> Result<(), Fail> {
    let alloc = rt.alloc();
    let three = knapsack(alloc, THREE)?;
    let root = three.root(alloc)?;
    assert_eq!(rt; three.bound(&root), 5);
    let mut children = Vec::new(alloc);
    assert_eq!(rt;
        bounds(alloc, &three, root, &mut children)?.as_slice(),
        [5, 6].as_slice()
    );
    // The list holds children still: they go.
    let root = three.root(alloc)?;
    assert_eq!(rt;
        bounds(alloc, &three, root, &mut children)?.as_slice(),
        [5, 6].as_slice()
    );
    let mut walk = KnapWalk::new(alloc, &three)?;
    assert_eq!(rt; walk.bound(), 5);
    assert!(rt; !walk.is_leaf());
    walk.enter()?;
    assert_eq!(rt; walk.bound(), 5);
    walk.skip();
    assert_eq!(rt; walk.bound(), 6);
    walk.skip();
    assert!(rt; walk.is_over());
    Ok(())
}

// the plan that is come to by first children alone
fn first_plan(alloc: Global, knapsack: &Knapsack) -> Result<Option<Choice>, NoMemory> {
    let mut node = knapsack.root(alloc)?;
    for _ in 0..1025 {
        match knapsack.expand(alloc, node)? {
            Step::Leaf(plan) => return Ok(Some(plan)),
            Step::Branch(mut nodes) => {
                nodes.truncate(1);
                match nodes.pop() {
                    Some(first) => node = first,
                    None => return Ok(None),
                }
            }
        }
    }
    Ok(None)
}

#[test]
fn comes_to_plans(rt: HostRuntime) -> Result<(), Fail> {
    let alloc = rt.alloc();
    let ten = knapsack(
        alloc,
        "10 165\n23 92\n31 57\n29 49\n44 68\n53 60\n38 43\n63 67\n85 84\n89 87\n82 72\n",
    )?;
    assert_eq!(rt; ten.root_bound(), 309);
    let plan = first_plan(alloc, &ten)?.ok_or("no leaf")?;
    assert_eq!(rt; plan.numbers.as_slice(), [0, 1, 2, 3, 5].as_slice());
    assert_eq!(rt; ten.cost(&plan), 370);
    let mut text = String::from_str(alloc, "1024 1000000000000\n")?;
    for _ in 0..1024 {
        text.push_str("976562500 65535\n")?;
    }
    let greatest = knapsack(alloc, text.as_str())?;
    let plan = first_plan(alloc, &greatest)?.ok_or("no leaf")?;
    assert_eq!(rt; plan.numbers.len(), 1024);
    assert_eq!(rt; greatest.cost(&plan), 0);
    Ok(())
}
