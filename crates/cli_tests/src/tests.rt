//! Runs of the top call over memory.

use pq_api::Gate;
use pq_cli::{Status, run, run_still};
use pq_io::{MemorySink, MemorySource};
use std::alloc::{AllocError, Global};
use std::process::Abort;
use std::sync::Wait;
use std::test::Fail;
use std::thread::Threads;

mod answers;
mod hostile;
mod lanes;
mod refusals;
mod workers;

const THREE_ITEMS: &str = "3 5\n2 3\n3 4\n4 5\n";

const THREE_BY_THREE: &str = "3 3\n0 3 1 2 2 2\n0 2 2 1 1 4\n1 4 2 3 0 0\n";

// Which calls of the input, the output and the faults fail.
#[derive(Drop)]
struct Failing {
    reads: u32,
    writes: u32,
    lines: u32,
}

const NONE: Failing = Failing {
    reads: 0,
    writes: 0,
    lines: 0,
};

fn owned(alloc: Global, words: &[&str]) -> Result<Vec<String>, AllocError> {
    let mut all = Vec::new(alloc);
    for word in words {
        all.push(String::from_str(alloc, word)?)?;
    }
    Ok(all)
}

// What a call with threads came to: the status, the output and the faults.
#[derive(Drop)]
struct Ran {
    status: Status,
    output: MemorySink,
    faults: MemorySink,
}

// Runs the words on the input with this gate.
fn run_with<Rt: Threads + Wait + Sync, G: Gate>(
    rt: &Rt,
    alloc: Global,
    words: &[&str],
    input: &str,
    gate: &G,
) -> Result<Ran, Fail> {
    let words = owned(alloc, words)?;
    let bytes = Vec::from_slice(alloc, input.as_bytes())?;
    let mut source = MemorySource::new(bytes, vec![in alloc; NONE.reads]?);
    let mut output = MemorySink::new(alloc, 200, vec![in alloc; NONE.writes]?)?;
    let mut faults = MemorySink::new(alloc, 200, vec![in alloc; NONE.lines]?)?;
    let status = run(
        rt,
        alloc,
        &words,
        &mut source,
        &mut output,
        &mut faults,
        gate,
    );
    Ok(Ran {
        status,
        output,
        faults,
    })
}

// What a call without threads came to: the status, the three streams.
#[derive(Drop)]
struct RanStill {
    status: Status,
    source: MemorySource,
    output: MemorySink,
    faults: MemorySink,
}

// Runs the words on these bytes without threads, where these calls fail and the output takes so many bytes.
fn run_still_with(
    alloc: Global,
    words: &[&str],
    bytes: Vec<u8>,
    failing: &Failing,
    room: u32,
) -> Result<RanStill, Fail> {
    let words = owned(alloc, words)?;
    let mut source = MemorySource::new(bytes, vec![in alloc; failing.reads]?);
    let mut output = MemorySink::new(alloc, room, vec![in alloc; failing.writes]?)?;
    let mut faults = MemorySink::new(alloc, 200, vec![in alloc; failing.lines]?)?;
    let status = run_still(alloc, &words, &mut source, &mut output, &mut faults);
    Ok(RanStill {
        status,
        source,
        output,
        faults,
    })
}

// Runs the words on the input, where these calls fail, and compares the status, the output, the line in the faults and
// the counts.
fn expect(
    rt: &impl Abort,
    alloc: Global,
    words: &[&str],
    input: &str,
    failing: &Failing,
    wanted: (Status, &str, &str),
) -> Result<(), Fail> {
    let bytes = Vec::from_slice(alloc, input.as_bytes())?;
    let ran = run_still_with(alloc, words, bytes, failing, 200)?;
    assert_eq!(rt; ran.status, wanted.0, "of {input:?}");
    assert_eq!(rt; ran.output.bytes(), wanted.1.as_bytes(), "of {input:?}");
    assert_eq!(rt; ran.faults.bytes(), wanted.2.as_bytes(), "of {input:?}");
    let counts = [
        ran.source.faults(),
        ran.output.faults(),
        ran.faults.faults(),
    ];
    let failed = [failing.reads, failing.writes, failing.lines].map(|call| u64::from(call.min(1)));
    assert_eq!(rt; counts, failed);
    Ok(())
}
