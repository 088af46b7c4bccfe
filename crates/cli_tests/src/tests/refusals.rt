//! What comes in place of an answer.

use super::{Failing, NONE, THREE_ITEMS, expect};
use pq_cli::Status;
use pq_io::{BadInput, Cause};
use std::test::Fail;

const SOLVE: [&str; 4] = ["solve", "knapsack", "--queue", "plain"];

#[test]
fn names_the_first_fault(rt: HostRuntime) -> Result<(), Fail> {
    let line = |line, cause| Status::BadInput(BadInput { line, cause });
    for (input, status, reported) in [
        (
            "2 5\n1 67108863\n1 1\n",
            line(3, Cause::Range),
            "line 3: range\n",
        ),
        ("1 5\nx 3\n", line(2, Cause::Number), "line 2: number\n"),
        ("1 5\n", line(2, Cause::Missing), "line 2: missing\n"),
    ] {
        expect(
            &rt,
            rt.alloc(),
            &SOLVE,
            input,
            &NONE,
            (status, "", reported),
        )?;
    }
    Ok(())
}

// The words of no command, and those of commands that need threads.
#[test]
fn refuses_words_that_it_does_not_serve(rt: HostRuntime) -> Result<(), Fail> {
    for words in [
        "audit --",
        "solve knapsack",
        "prove knapsack --queue hunt",
        "trace",
        "drill",
    ] {
        let split: Vec<&str> = words.split(' ').collect(rt.alloc())?;
        let wanted = (Status::BadWords, "", "bad words\n");
        expect(&rt, rt.alloc(), &split, THREE_ITEMS, &NONE, wanted)?;
    }
    Ok(())
}

// Three items in a bag of five: the root and its two children are made first, six nodes in all.
#[test]
fn stops_at_its_limits(rt: HostRuntime) -> Result<(), Fail> {
    let solved = (Status::Ok, "value 7\nitems 0 1\n", "");
    let asked = |limit| Status::NodeLimit { asked: 3, limit };
    let full = |place| Status::Full { place };
    for (limit, wanted) in [
        (
            "--nodes=1",
            (asked(1), "", "node limit: asked 3, limit 1\n"),
        ),
        (
            "--nodes=2",
            (asked(2), "", "node limit: asked 3, limit 2\n"),
        ),
        ("--nodes=6", solved),
        ("--capacity=1", (full(3), "", "full at place 3\n")),
        ("--capacity=2", (full(6), "", "full at place 6\n")),
        ("--capacity=3", solved),
    ] {
        let words = ["solve", limit, "knapsack", "--queue=plain"];
        expect(&rt, rt.alloc(), &words, THREE_ITEMS, &NONE, wanted)?;
    }
    Ok(())
}

// The second read fails, then the first write, and then the line that says so.
#[test]
fn reports_failing_streams(rt: HostRuntime) -> Result<(), Fail> {
    let reads = Failing { reads: 2, ..NONE };
    let wanted = (Status::ReadFault, "", "read fault\n");
    expect(&rt, rt.alloc(), &SOLVE, THREE_ITEMS, &reads, wanted)?;
    let writes = Failing { writes: 1, ..NONE };
    let wanted = (Status::WriteFault, "", "write fault\n");
    expect(&rt, rt.alloc(), &SOLVE, THREE_ITEMS, &writes, wanted)?;
    let lines = Failing { lines: 1, ..NONE };
    let wanted = (Status::WriteFault, "", "");
    expect(&rt, rt.alloc(), &["solve"], THREE_ITEMS, &lines, wanted)
}
