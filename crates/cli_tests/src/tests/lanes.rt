//! Lanes on the heap: two whose insertions meet in the middle of their work, and drills, with the workers of their
//! searches.

use super::run_with;
use pq_api::{Open, Pair, Point};
use pq_cli::Status;
use std::test::Fail;

#[test]
fn two_insertions_meet(rt: HostRuntime) -> Result<(), Fail> {
    let pair = Pair::new(Point::HeapBusy, 0, 10_000_000);
    let ran = run_with(&rt, rt.alloc(), &["trace"], "+ 1 1\nlane\n+ 2 2\n", &pair)?;
    assert_eq!(rt; ran.status, Status::Ok);
    assert!(rt; pair.met());
    assert!(rt; !pair.spent());
    assert!(rt; ran.output.bytes().ends_with(b"left 2\n"));
    Ok(())
}

// Two lanes of a drill are at work at once, and then two workers of its search: the first insertion is held in the
// middle of its work until the other lane's comes there, and the second node that is taken until a third is. The
// search's own first insertion comes before any worker starts.
#[test]
fn lanes_and_workers_of_a_drill_meet(rt: HostRuntime) -> Result<(), Fail> {
    for (point, skip) in [(Point::HeapBusy, 0), (Point::WorkerNode, 1)] {
        let pair = Pair::new(point, skip, 10_000_000);
        let words = ["drill", "--workers", "2", "--size", "1"];
        let ran = run_with(&rt, rt.alloc(), &words, "", &pair)?;
        assert_eq!(rt; ran.status, Status::Ok);
        assert!(rt; pair.met());
        assert!(rt; !pair.spent());
        assert_eq!(rt;
            ran.output.bytes(),
            "marks 4\nleft 0\nvalue 509\n".as_bytes()
        );
    }
    Ok(())
}

// The values are those of the best of all choices, which were enumerated elsewhere.
#[test]
fn drills_tell_what_came_of_them(rt: HostRuntime) -> Result<(), Fail> {
    for (words, output) in [
        ("drill --size 0 --workers 1", "marks 0\nleft 0\nvalue 509\n"),
        ("drill --seed=2 --size=5", "marks 40\nleft 0\nvalue 556\n"),
        (
            "drill --workers 16 --size 9",
            "marks 288\nleft 0\nvalue 509\n",
        ),
    ] {
        let split: Vec<&str> = words.split(' ').collect(rt.alloc())?;
        let ran = run_with(&rt, rt.alloc(), &split, "no input", &Open)?;
        assert_eq!(rt; ran.status, Status::Ok, "of {words}");
        assert_eq!(rt; ran.output.bytes(), output.as_bytes(), "of {words}");
    }
    Ok(())
}
