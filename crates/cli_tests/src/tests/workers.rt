//! Several workers on the heap: two that hold a node each, and how they end, as one worker does.

use super::{THREE_BY_THREE, THREE_ITEMS, run_with};
use pq_api::{Open, Pair, Point};
use pq_cli::Status;
use std::test::Fail;

// The one that takes the root goes on, and leaves its children. Of the two that then take one, the first is held until
// the second comes.
#[test]
fn two_workers_hold_a_node_each(rt: HostRuntime) -> Result<(), Fail> {
    for (kind, input, output) in [
        ("shop", THREE_BY_THREE, "makespan 11\n"),
        ("knapsack", THREE_ITEMS, "value 7\nitems 0 1\n"),
    ] {
        let pair = Pair::new(Point::WorkerNode, 1, 10_000_000);
        let words = ["solve", kind, "--workers", "2"];
        let ran = run_with(&rt, rt.alloc(), &words, input, &pair)?;
        assert_eq!(rt; ran.status, Status::Ok, "of the {kind}");
        assert!(rt; pair.met(), "at the {kind}");
        assert!(rt; !pair.spent(), "at the {kind}");
        assert!(rt;
            ran.output.bytes().starts_with(output.as_bytes()),
            "of the {kind}"
        );
    }
    Ok(())
}

// The root and its two children are made first, and six nodes in all are needed by one worker.
#[test]
fn workers_end_as_one_does(rt: HostRuntime) -> Result<(), Fail> {
    for workers in ["--workers=1", "--workers=2", "--workers=4", "--workers=16"] {
        for (limit, status, output, faults) in [
            (
                "--nodes=1",
                Status::NodeLimit { asked: 3, limit: 1 },
                "",
                "node limit: asked 3, limit 1\n",
            ),
            (
                "--nodes=2",
                Status::NodeLimit { asked: 3, limit: 2 },
                "",
                "node limit: asked 3, limit 2\n",
            ),
            ("--nodes=6", Status::Ok, "value 7\nitems 0 1\n", ""),
            ("--capacity=16", Status::Ok, "value 7\nitems 0 1\n", ""),
        ] {
            let words = ["solve", workers, limit, "knapsack"];
            let ran = run_with(&rt, rt.alloc(), &words, THREE_ITEMS, &Open)?;
            assert_eq!(rt; ran.status, status, "with {workers} and {limit}");
            assert_eq!(rt;
                ran.output.bytes(),
                output.as_bytes(),
                "with {workers} and {limit}"
            );
            assert_eq!(rt;
                ran.faults.bytes(),
                faults.as_bytes(),
                "with {workers} and {limit}"
            );
        }
    }
    Ok(())
}

#[test]
fn the_heap_is_taken_where_no_queue_is_named(rt: HostRuntime) -> Result<(), Fail> {
    for (words, status) in [
        ("solve knapsack", Status::Ok),
        ("prove knapsack", Status::Ok),
        ("solve knapsack --capacity 4", Status::Ok),
        ("solve knapsack --capacity 3", Status::BadWords),
        ("solve knapsack --workers 17", Status::BadWords),
    ] {
        let split: Vec<&str> = words.split(' ').collect(rt.alloc())?;
        let ran = run_with(&rt, rt.alloc(), &split, THREE_ITEMS, &Open)?;
        assert_eq!(rt; ran.status, status, "of {words}");
    }
    Ok(())
}
