//! Inputs that end early, outputs that take too little, reads that fail, and texts of odd shapes.

use super::{Failing, NONE, expect, run_still_with};
use pq_cli::Status;
use pq_io::{BadInput, Cause};
use std::test::Fail;

const SOLVE: [&str; 4] = ["solve", "knapsack", "--queue", "plain"];

// Its best choices are worth 309. With its last two bytes cut off it says the same, but for the last item's value: 7.
const TEN_ITEMS: &str =
    "10 165\n23 92\n31 57\n29 49\n44 68\n53 60\n38 43\n63 67\n85 84\n89 87\n82 72\n";

#[test]
fn inputs_that_end_early_miss_something(rt: HostRuntime) -> Result<(), Fail> {
    let bytes = TEN_ITEMS.as_bytes();
    for cut in 0..=bytes.len() {
        let kept = Vec::from_slice(rt.alloc(), &bytes[..cut])?;
        let ran = run_still_with(rt.alloc(), &SOLVE, kept, &NONE, 200)?;
        if cut < 65 {
            let missing = matches!(
                ran.status,
                Status::BadInput(BadInput {
                    cause: Cause::Missing,
                    ..
                })
            );
            assert!(rt; missing, "of {cut} bytes");
            assert!(rt; ran.output.bytes().is_empty(), "of {cut} bytes");
        } else {
            assert_eq!(rt; ran.status, Status::Ok, "of {cut} bytes");
            assert!(rt;
                ran.output.bytes().starts_with(b"value 309\n"),
                "of {cut} bytes"
            );
        }
    }
    Ok(())
}

#[test]
fn outputs_with_too_little_room_take_a_prefix(rt: HostRuntime) -> Result<(), Fail> {
    let whole = b"value 0\nitems\n".as_slice();
    for room in 0..=14_u32 {
        let input = Vec::from_slice(rt.alloc(), b"0 10\n")?;
        let ran = run_still_with(rt.alloc(), &SOLVE, input, &NONE, room)?;
        let status = if room < 14 {
            Status::WriteFault
        } else {
            Status::Ok
        };
        assert_eq!(rt; ran.status, status, "in {room} bytes");
        let written = ran.output.bytes();
        assert!(rt;
            written.len() <= room as usize && whole.starts_with(written),
            "in {room} bytes"
        );
        assert_eq!(rt; status == Status::Ok, written == whole, "in {room} bytes");
    }
    Ok(())
}

#[test]
fn failing_reads_and_lines_are_told(rt: HostRuntime) -> Result<(), Fail> {
    for reads in [1, 2] {
        let failing = Failing { reads, ..NONE };
        let wanted = (Status::ReadFault, "", "read fault\n");
        expect(&rt, rt.alloc(), &SOLVE, TEN_ITEMS, &failing, wanted)?;
    }
    let lines = Failing { lines: 1, ..NONE };
    let wanted = (Status::WriteFault, "", "");
    for words in [
        [].as_slice(),
        &["solve"],
        &["solve", "knapsack", "--nodes", "0"],
        &["solve", "knapsack", "--nodes=5", "--nodes=5"],
    ] {
        expect(&rt, rt.alloc(), words, TEN_ITEMS, &lines, wanted)?;
    }
    Ok(())
}

#[test]
fn odd_texts_have_a_first_fault(rt: HostRuntime) -> Result<(), Fail> {
    let line = |line, cause| Status::BadInput(BadInput { line, cause });
    let mut nines = String::from_str(rt.alloc(), "0 ")?;
    for _ in 0..100 {
        nines.push('9')?;
    }
    for (input, status, reported) in [
        (nines.as_str(), line(1, Cause::Range), "line 1: range\n"),
        ("1 5\n-2 3\n", line(2, Cause::Number), "line 2: number\n"),
        ("#\n#\n#\n", line(4, Cause::Missing), "line 4: missing\n"),
    ] {
        expect(
            &rt,
            rt.alloc(),
            &SOLVE,
            input,
            &NONE,
            (status, "", reported),
        )?;
    }
    let longest = vec![in rt.alloc(); b'#'; 67_108_865]?;
    let ran = run_still_with(rt.alloc(), &SOLVE, longest, &NONE, 200)?;
    assert_eq!(rt; ran.status, line(0, Cause::TooLarge));
    assert_eq!(rt; ran.faults.bytes(), "line 0: too large\n".as_bytes());
    Ok(())
}
