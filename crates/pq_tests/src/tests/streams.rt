//! Tests of the streams.

use pq_io::*;
use std::io::{self, ErrorKind, Read, Write};
use std::process::Abort;
use std::test::Fail;

// A reader that gives one byte a call, and fails at one call.
#[derive(Drop)]
struct Drip {
    byte: u8,
    left: u32,
    fail_in: u32,
    widest: usize,
}

impl Read for Drip {
    fn read(&mut self, room: &mut [u8]) -> io::Result<usize> {
        self.widest = self.widest.max(room.len());
        if self.fail_in == 1 {
            self.fail_in = 0;
            return Err(io::Error::from(ErrorKind::Interrupted));
        }
        self.fail_in = self.fail_in.saturating_sub(1);
        if room.is_empty() || self.left == 0 {
            return Ok(0);
        }
        self.left -= 1;
        room[0] = self.byte;
        Ok(1)
    }
}

// A writer that takes at most three bytes a call, and nothing once it is full.
#[derive(Drop)]
struct Narrow {
    taken: Vec<u8>,
    room: usize,
}

impl Write for Narrow {
    fn write(&mut self, piece: &[u8]) -> io::Result<usize> {
        let count = piece
            .len()
            .min(3)
            .min(self.room.saturating_sub(self.taken.len()));
        self.taken.extend_from_slice(&piece[..count])?;
        Ok(count)
    }

    fn flush(&mut self) -> io::Result<()> {
        Err(io::Error::from(ErrorKind::Other))
    }
}

// How many bytes were gathered, where they are not too long.
fn gathered(rt: &impl Abort, answer: Result<Gathered, GatherRefusal>) -> Option<usize> {
    match answer.expect(rt, "gathered") {
        Gathered::Bytes(bytes) => Some(bytes.len()),
        Gathered::TooLong => None,
    }
}

#[test]
fn gathers_up_to_the_limit(rt: HostRuntime) -> Result<(), Fail> {
    for (length, limit, want, left) in [
        (0, 0, Some(0), 0),
        (1, 0, None, 0),
        (4096, 4096, Some(4096), 0),
        (4097, 4096, None, 0),
        (9000, 9000, Some(9000), 0),
        (9003, 9000, None, 2),
    ] {
        let mut source = SureSource::new(vec![in rt.alloc(); 7; length]?);
        let answer = gather(rt.alloc(), &mut source, limit);
        assert_eq!(rt; gathered(&rt, answer), want, "{length} within {limit}");
        assert_eq!(rt; source.left().len(), left, "{length} within {limit}");
    }
    Ok(())
}

#[test]
fn an_input_has_a_greatest_length(rt: HostRuntime) -> Result<(), Fail> {
    let too_large = BadInput {
        line: 0,
        cause: Cause::TooLarge,
    };
    let mut bytes = vec![in rt.alloc(); b'\n'; LONGEST_INPUT as usize]?;
    assert!(rt; TextReader::open(&bytes).is_ok());
    let mut source = SureSource::new(bytes.clone()?);
    let all = gather_input(rt.alloc(), &mut source)
        .ok()
        .ok_or("an input")?;
    assert_eq!(rt; all.len(), LONGEST_INPUT as usize);
    bytes.push(b'\n')?;
    assert_eq!(rt; TextReader::open(&bytes).err(), Some(too_large));
    let mut source = SureSource::new(bytes);
    let refused = gather_input(rt.alloc(), &mut source).err();
    assert_eq!(rt; refused, Some(InputRefusal::BadInput(too_large)));
    assert_eq!(rt; source.left().len(), 0);
    Ok(())
}

#[test]
fn a_sure_source_has_no_read_fault(rt: HostRuntime) -> Result<(), Fail> {
    let mut source = SureSource::new([1, 2, 3].to_vec(rt.alloc())?);
    match gather(rt.alloc(), &mut source, 3) {
        Ok(Gathered::Bytes(bytes)) => assert_eq!(rt; bytes.as_slice(), [1, 2, 3].as_slice()),
        Ok(Gathered::TooLong) => panic!(rt; "three bytes"),
        Err(GatherRefusal::ReadFault) => unreachable!(),
        Err(GatherRefusal::NoMemory) => panic!(rt; "no memory"),
    }
    Ok(())
}

#[test]
fn the_listed_reads_fail(rt: HostRuntime) -> Result<(), Fail> {
    let bytes = vec![in rt.alloc(); 7; 5000]?;
    let mut source = MemorySource::new(bytes, [2].to_vec(rt.alloc())?);
    let first = gather(rt.alloc(), &mut source, 5000);
    assert!(rt; matches!(first, Err(GatherRefusal::ReadFault)));
    assert_eq!(rt; source.faults(), 1);
    assert_eq!(rt; source.left().len(), 904);
    let second = gather(rt.alloc(), &mut source, 5000);
    assert_eq!(rt; gathered(&rt, second), Some(904));
    assert_eq!(rt; source.faults(), 1);
    Ok(())
}

#[test]
fn puts_all_or_a_prefix(rt: HostRuntime) -> Result<(), Fail> {
    for (room, fail, want, faults) in [
        (5, 0, "hello", 0),
        (9, 2, "hello", 0),
        (3, 0, "hel", 1),
        (3, 2, "hel", 1),
        (5, 1, "", 1),
        (0, 0, "", 1),
    ] {
        let mut sink = MemorySink::new(rt.alloc(), room, [fail].to_vec(rt.alloc())?)?;
        let answer = put_all(&mut sink, b"hello");
        assert_eq!(rt; answer.is_err(), faults == 1, "room {room}, fault {fail}");
        assert_eq!(rt; sink.bytes(), want.as_bytes(), "room {room}, fault {fail}");
        assert_eq!(rt; sink.faults(), faults, "room {room}, fault {fail}");
        assert_eq!(rt; put_all(&mut sink, b""), Ok(()));
    }
    Ok(())
}

#[test]
fn a_slice_is_filled(rt: HostRuntime) {
    let mut room = [0; 7];
    let mut sink = SureSink::new(&mut room);
    assert_eq!(rt; put_all(&mut sink, b"one"), Ok(()));
    assert_eq!(rt; put_all(&mut sink, b"two"), Ok(()));
    assert_eq!(rt; sink.faults(), 0);
    assert_eq!(rt; put_all(&mut sink, b"six"), Err(Failed));
    assert_eq!(rt; sink.bytes(), b"onetwos".as_slice());
    assert_eq!(rt; sink.faults(), 1);
}

#[test]
fn a_reader_is_a_source(rt: HostRuntime) {
    let mut source = StdSource::new(b"bytes".as_slice());
    let all = gather(rt.alloc(), &mut source, 5);
    assert_eq!(rt; gathered(&rt, all), Some(5));

    let mut drip = Drip {
        byte: 7,
        left: 20,
        fail_in: 13,
        widest: 0,
    };
    let mut source = StdSource::new(&mut drip);
    let first = gather(rt.alloc(), &mut source, 20);
    assert!(rt; matches!(first, Err(GatherRefusal::ReadFault)));
    let second = gather(rt.alloc(), &mut source, 8);
    assert_eq!(rt; gathered(&rt, second), Some(8));
    let third = gather(rt.alloc(), &mut source, 100000);
    assert_eq!(rt; gathered(&rt, third), Some(0));
    assert_eq!(rt; source.faults(), 1);
    assert_eq!(rt; drip.widest, 4096);
}

#[test]
fn a_writer_is_a_sink(rt: HostRuntime) {
    let mut bytes = Vec::new(rt.alloc());
    let mut sink = StdSink::new(&mut bytes);
    assert_eq!(rt; put_all(&mut sink, b"bytes"), Ok(()));
    assert_eq!(rt; sink.flush(), Ok(()));
    assert_eq!(rt; sink.faults(), 0);
    assert_eq!(rt; bytes.as_slice(), b"bytes".as_slice());

    let mut narrow = Narrow {
        taken: Vec::new(rt.alloc()),
        room: 8,
    };
    let mut sink = StdSink::new(&mut narrow);
    assert_eq!(rt; put_all(&mut sink, b"bytes"), Ok(()));
    assert_eq!(rt; put_all(&mut sink, b"bytes"), Err(Failed));
    assert_eq!(rt; sink.flush(), Err(Failed));
    assert_eq!(rt; sink.faults(), 2);
    assert_eq!(rt; narrow.taken.as_slice(), b"bytesbyt".as_slice());
}
