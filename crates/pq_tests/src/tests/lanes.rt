//! Scripts run on the plain queue, which has one seat.
use inst_text::read_script;
use pq_api::{Open, PlainQueue};
use pq_io::{Failed, MemorySink, ReadRefusal};
use pq_lanes::trace_script;
use pq_tape::{History, write_history};
use std::alloc::Global;
use std::sync::Wait;
use std::test::Fail;
use std::thread::Threads;

// The text of the history of a script of one lane, on a plain queue of four entries.
fn text_of<Rt: Threads + Wait + Sync>(
    rt: &Rt,
    alloc: Global,
    text: &str,
) -> Result<MemorySink, ReadRefusal> {
    let script = read_script(alloc, text.as_bytes(), 1)?;
    let history = trace_script::<Rt, PlainQueue>(rt, alloc, &script, 4, Open)?;
    let History { head, marks, left } = history;
    let mut sink = MemorySink::new(alloc, 400, Vec::new(alloc))?;
    match write_history(head, &marks, left, &mut sink) {
        Ok(()) => Ok(sink),
        Err(Failed) => Err(ReadRefusal::NoMemory),
    }
}

#[test]
fn one_lane_on_the_plain_queue(rt: HostRuntime) -> Result<(), Fail> {
    for (script, wanted) in [
        ("", "seats 1 capacity 4\nleft 0\n"),
        (
            "+ 5 1\n+ 3 2\n< 3\n-\n",
            "seats 1 capacity 4\n0 1 + 5 1 done\n1 1 + 3 2 done\n2 1 < 3 above\n3 1 - got 3 2\nleft 1\n",
        ),
        (
            "+ 1 0\n+ 1 0\n+ 1 0\n+ 1 0\n+ 0 0\n< 2\n",
            "seats 1 capacity 4\n0 1 + 1 0 done\n1 1 + 1 0 done\n2 1 + 1 0 done\n3 1 + 1 0 done\n\
                4 1 + 0 0 full\n5 1 < 2 got 1 0\nleft 3\n",
        ),
    ] {
        let sink = text_of(&rt, rt.alloc(), script).ok().ok_or("memory")?;
        assert_eq!(rt; sink.bytes(), wanted.as_bytes(), "of {script:?}");
    }
    Ok(())
}
