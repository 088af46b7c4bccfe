//! Texts that are read and written, and first faults.
use pq_io::{BadInput, Cause, Failed, MemorySink, ReadRefusal};
use pq_model::{Act, Mark, Reply};
use pq_tape::*;
use pq_words::Entry;
use std::alloc::Global;
use std::test::Fail;

// Calls of every kind, the greatest seat, key and id, and a seat number above the capacity.
const EVERY_KIND: &[u8] =
    b"seats 16 capacity 1\n0 16 + 67108863 4194303 done\n1 1 + 0 0 full\n2 9 - got 67108863 4194303\n3 2 - empty\n\
4 1 < 0 empty\n5 2 < 67108864 got 67108863 4194303\n6 16 < 67108863 above\nleft 0\n";

// What is written for the history that these bytes record, into a sink of this room, whose write of this
// number is to fail.
fn again(
    alloc: Global,
    bytes: &[u8],
    room: u32,
    fail: u32,
) -> Result<(Result<(), Failed>, MemorySink), Fail> {
    let Ok(history) = read_history(alloc, bytes) else {
        return Err("the text is a history".into());
    };
    let failing = Vec::from_slice(alloc, &[fail])?;
    let Ok(mut sink) = MemorySink::new(alloc, room, failing) else {
        return Err("memory".into());
    };
    let written = write_history(
        history.head,
        history.marks.as_slice(),
        history.left,
        &mut sink,
    );
    Ok((written, sink))
}

#[test]
fn texts_are_written_again(rt: HostRuntime) -> Result<(), Fail> {
    let rows: [&[u8]; 3] = [
        b"seats 1 capacity 4\n0 1 + 5 1 done\n1 1 + 3 2 done\n2 1 - got 5 1\n3 1 - got 3 2\nleft 0\n",
        b"seats 1 capacity 1048576\nleft 1048576\n",
        EVERY_KIND,
    ];
    for bytes in rows {
        let (written, sink) = again(rt.alloc(), bytes, 4_096, 0)?;
        assert_eq!(rt; written, Ok(()));
        assert_eq!(rt; sink.bytes(), bytes);
    }
    Ok(())
}

#[test]
fn marks_of_a_text(rt: HostRuntime) -> Result<(), Fail> {
    let bytes = b"# two\r\nseats 2 capacity 07\r\n\r\n 0\t2 +  5 1 done\r\n#\n1 1 - empty\nleft 1";
    let history = read_history(rt.alloc(), bytes)
        .ok()
        .ok_or("the text is a history")?;
    let five = Entry::new(5, 1).ok_or("an entry")?;
    let marks = [
        Mark {
            seat: 2,
            act: Act::Insert(five),
            reply: Reply::Done,
        },
        Mark {
            seat: 1,
            act: Act::Remove,
            reply: Reply::Empty,
        },
    ];
    assert_eq!(rt; history.marks.as_slice(), marks.as_slice());
    assert_eq!(rt; history.left, 1);
    assert!(rt; history.head.seats == 2 && history.head.capacity == 7);
    Ok(())
}

#[test]
fn failing_sinks(rt: HostRuntime) -> Result<(), Fail> {
    let rows = [(4_096, 1, 0), (30, 0, 30), (0, 0, 0)];
    for (room, fail, prefix) in rows {
        let (written, sink) = again(rt.alloc(), EVERY_KIND, room, fail)?;
        assert_eq!(rt; written, Err(Failed));
        assert_eq!(rt; Some(sink.bytes()), EVERY_KIND.get(..prefix));
    }
    Ok(())
}

#[test]
fn first_faults(rt: HostRuntime) {
    let rows: [(&[u8], u32, Cause); 29] = [
        (b"", 1, Cause::Missing),
        (b"seats 2 capacity 4\n", 2, Cause::Missing),
        (b"seats 0 capacity 4\n", 1, Cause::Range),
        (b"seats 17 capacity 4\n", 1, Cause::Range),
        (b"seats 2 capacity 0\n", 1, Cause::Range),
        (b"seats 2 capacity 1048577\n", 1, Cause::Range),
        (b"seat 2 capacity 4\n", 1, Cause::Word),
        (b"seats 2\n", 1, Cause::Missing),
        (b"seats 2 capacity 4 5\n", 1, Cause::Extra),
        (b"seats 2 capacity 4\nx 0 - empty\n", 2, Cause::Number),
        (b"seats 2 capacity 4\n1 0 - empty\n", 2, Cause::Range),
        (b"seats 2 capacity 4\n0 0 - empty\n", 2, Cause::Range),
        (b"seats 2 capacity 4\n0 3 - empty\n", 2, Cause::Range),
        (b"seats 2 capacity 4\n0 2 * 5 1 done\n", 2, Cause::Word),
        (
            b"seats 2 capacity 4\n0 2 + 67108864 1 done\n",
            2,
            Cause::Range,
        ),
        (
            b"seats 2 capacity 4\n0 2 + 5 4194304 done\n",
            2,
            Cause::Range,
        ),
        (b"seats 2 capacity 4\n0 2 + 5 1 empty\n", 2, Cause::Word),
        (b"seats 2 capacity 4\n0 2 - done\n", 2, Cause::Word),
        (b"seats 2 capacity 4\n0 2 - got 5\n", 2, Cause::Missing),
        (b"seats 2 capacity 4\n0 2 - empty 1\n", 2, Cause::Extra),
        (
            b"seats 2 capacity 4\n0 2 < 67108865 empty\n",
            2,
            Cause::Range,
        ),
        (b"seats 2 capacity 4\n0 2 < x empty\n", 2, Cause::Number),
        (b"seats 2 capacity 4\n0 2 < 5 done\n", 2, Cause::Word),
        (b"seats 2 capacity 4\n0 2 - above\n", 2, Cause::Word),
        (b"seats 2 capacity 4\n0 2 < 5 above 1\n", 2, Cause::Extra),
        (b"seats 2 capacity 4\n0 2 - empty\n\n", 4, Cause::Missing),
        (b"seats 2 capacity 4\nleft 1048577\n", 2, Cause::Range),
        (b"seats 2 capacity 4\nleft 0 1\n", 2, Cause::Extra),
        (b"seats 2 capacity 4\nleft 0\n#\nleft 0\n", 4, Cause::Extra),
    ];
    for (bytes, line, cause) in rows {
        let refusal = read_history(rt.alloc(), bytes).err();
        assert_eq!(rt;
            refusal,
            Some(ReadRefusal::BadInput(BadInput { line, cause }))
        );
    }
}
