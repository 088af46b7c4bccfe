//! Tests of the readers and the writers: each reader on worked texts, and the plans that are written. The first faults of
//! texts that have no reading are cases of the built program (`tests/cli/faults.table`).

use inst_text::*;
use pq_io::{BadInput, Cause, ReadRefusal};
use pq_model::Act;
use pq_words::Entry;
use std::alloc::Global;
use std::test::Fail;

const HUNDRED_ZEROS: &[u8] =
    b"1 5\n00000000000000000000000000000000000000000000000000000000000000000000000000000000000000000000000000002 3\n";

const fn item(weight: u32, value: u32) -> Item {
    Item { weight, value }
}

#[test]
fn knapsacks(rt: HostRuntime) -> Result<(), Fail> {
    let two = [item(2, 5), item(0, 1)];
    let one = [item(2, 3)];
    let rows: [(&[u8], u64, &[Item]); 7] = [
        (b"0 10\n", 10, &[]),
        (b"2 6\n2 5\n0 1\n", 6, &two),
        (b"2 6\r\n2 5\r\n0 1", 6, &two),
        (
            b"# head\n\n \t2\t 6 \n\t# item\n2 5\n\r\n0 1\n#\n\n",
            6,
            &two,
        ),
        (HUNDRED_ZEROS, 5, &one),
        (b"1 1000000000000\n2 3\n\r", MAX_KNAPSACK_CAPACITY, &one),
        (b"0002 6\n02 05\n00 01", 6, &two),
    ];
    for (bytes, capacity, items) in rows {
        let read = read_knapsack(rt.alloc(), bytes).ok().ok_or("an instance")?;
        assert_eq!(rt; read.capacity, capacity);
        assert_eq!(rt; read.items.as_slice(), items);
    }
    Ok(())
}

const fn operation(machine: u32, time: u32) -> Operation {
    Operation { machine, time }
}

#[test]
fn shops(rt: HostRuntime) -> Result<(), Fail> {
    let three: [[Operation; 3]; 3] = [
        [operation(0, 3), operation(1, 2), operation(2, 2)],
        [operation(0, 2), operation(2, 1), operation(1, 4)],
        [operation(1, 4), operation(2, 3), operation(0, 0)],
    ];
    let texts: [&[u8]; 2] = [
        b"3 3\n0 3 1 2 2 2\n0 2 2 1 1 4\n1 4 2 3 0 0\n",
        b"# jobs machines\n3\t3\r\n\n0 3 1 2 2 2\n # second\n0 2 2 1 1 4\n1 4 2 3 0 0",
    ];
    for bytes in texts {
        let shop = read_shop(rt.alloc(), bytes).ok().ok_or("a shop")?;
        assert_eq!(rt; shop.machines, 3);
        assert_eq!(rt; shop.rows.len(), 3);
        for (row, expected) in shop.rows.iter().zip(&three) {
            assert_eq!(rt; row.as_slice(), expected.as_slice());
        }
    }
    let smallest = read_shop(rt.alloc(), b"1 1\n0 0\n").ok().ok_or("a shop")?;
    assert_eq!(rt; smallest.machines, 1);
    assert_eq!(rt; smallest.rows.len(), 1);
    assert_eq!(rt; smallest.rows[0].as_slice(), [operation(0, 0)].as_slice());
    Ok(())
}

#[test]
fn choices(rt: HostRuntime) -> Result<(), Fail> {
    let rows: [(&[u8], u32, &[u32], &[u8]); 5] = [
        (
            b"3 5\n2 3\n3 4\n4 5\nvalue 7\nitems 0 2\n",
            7,
            &[0, 2],
            b"value 7\nitems 0 2\n",
        ),
        (
            b"3 5\n2 3\n3 4\n4 5\nvalue 0\nitems\n",
            0,
            &[],
            b"value 0\nitems\n",
        ),
        (
            b"0 5\nvalue 4294967295\nitems",
            MAX_STATED,
            &[],
            b"value 4294967295\nitems\n",
        ),
        (
            b"3 5\n2 3\n3 4\n4 5\n\n# a plan\n value\t007 \r\nitems 0 1 2\r\n#",
            7,
            &[0, 1, 2],
            b"value 7\nitems 0 1 2\n",
        ),
        (
            b"6 0\n0 0\n0 0\n0 0\n0 0\n0 0\n0 0\nvalue 309\nitems 0 1 2 3 5\n",
            309,
            &[0, 1, 2, 3, 5],
            b"value 309\nitems 0 1 2 3 5\n",
        ),
    ];
    for (bytes, stated, numbers, written) in rows {
        let (_, choice) = read_plan_knapsack(rt.alloc(), bytes).ok().ok_or("a plan")?;
        assert_eq!(rt; choice.stated, stated);
        assert_eq!(rt; choice.plan.numbers.as_slice(), numbers);
        let text = write_choice(rt.alloc(), stated, &choice.plan)
            .ok()
            .ok_or("memory")?;
        assert_eq!(rt; text.as_slice(), written);
    }
    Ok(())
}

#[test]
fn starts(rt: HostRuntime) -> Result<(), Fail> {
    let bytes = b"3 3\n0 3 1 2 2 2\n0 2 2 1 1 4\n1 4 2 3 0 0\nmakespan 11\n2 5 7\n0 2 7\n0 4 7\n";
    let (shop, starts) = read_plan_shop(rt.alloc(), bytes).ok().ok_or("a plan")?;
    let rows: [[u32; 3]; 3] = [[2, 5, 7], [0, 2, 7], [0, 4, 7]];
    assert_eq!(rt; shop.machines, 3);
    assert_eq!(rt; starts.stated, 11);
    assert_eq!(rt; starts.plan.rows.len(), 3);
    for (row, expected) in starts.plan.rows.iter().zip(&rows) {
        assert_eq!(rt; row.as_slice(), expected.as_slice());
    }
    let starts = Starts {
        rows: vec![in rt.alloc();
            vec![in rt.alloc(); 0, 3, MAX_TOTAL]?,
            vec![in rt.alloc(); 12]?,
        ]?,
    };
    let text = write_starts(rt.alloc(), 15, &starts).ok().ok_or("memory")?;
    assert_eq!(rt;
        text.as_slice(),
        b"makespan 15\n0 3 67108863\n12\n".as_slice()
    );
    Ok(())
}

#[test]
fn scripts(rt: HostRuntime) -> Result<(), Fail> {
    let acts = [
        Act::Insert(Entry {
            key: 67_108_863,
            id: 4_194_303,
        }),
        Act::Remove,
        Act::RemoveBelow(67_108_864),
        Act::RemoveBelow(0),
    ];
    let rows: [(&[u8], usize, &[Act]); 4] = [
        (b"", 1, &[]),
        (b"+ 67108863 4194303\n-\n< 67108864\n< 0", 1, &acts),
        (
            b"# head\n\n+ 67108863\t04194303 \r\n-\nlane\n # none\nlane\n< 67108864\n< 0\n",
            3,
            &acts,
        ),
        (
            b"lane\nlane\nlane\nlane\nlane\nlane\nlane\nlane\nlane\nlane\nlane\nlane\nlane\nlane\nlane\n",
            16,
            &[],
        ),
    ];
    for (bytes, lanes, expected) in rows {
        let script = read_script(rt.alloc(), bytes, 16).ok().ok_or("a script")?;
        assert_eq!(rt; script.lanes.len(), lanes);
        let mut all = Vec::new(rt.alloc());
        for lane in &script.lanes {
            all.extend_from_slice(lane)?;
        }
        assert_eq!(rt; all.as_slice(), expected);
    }
    Ok(())
}

#[test]
fn longest_scripts(rt: HostRuntime) -> Result<(), Fail> {
    let mut text = Vec::new(rt.alloc());
    for _ in 0..MAX_COMMANDS {
        text.extend_from_slice(b"-\n")?;
    }
    let script = read_script(rt.alloc(), &text, 1).ok().ok_or("a script")?;
    assert_eq!(rt; script.lanes.len(), 1);
    assert_eq!(rt; script.lanes[0].len(), MAX_COMMANDS as usize);
    text.extend_from_slice(b"x")?;
    for (byte, cause) in [
        (b'-', Cause::Extra),
        (b'+', Cause::Extra),
        (b'x', Cause::Word),
    ] {
        if let Some(last) = text.last_mut() {
            *last = byte;
        }
        let fault = ReadRefusal::BadInput(BadInput {
            line: MAX_COMMANDS + 1,
            cause,
        });
        assert_eq!(rt; read_script(rt.alloc(), &text, 1).err(), Some(fault));
    }
    Ok(())
}

#[test]
fn made(rt: HostRuntime) -> Result<(), Fail> {
    let smallest = make_knapsack(rt.alloc(), 0, 1).ok().ok_or("memory")?;
    let text = write_knapsack(rt.alloc(), &smallest).ok().ok_or("memory")?;
    assert_eq!(rt; text.as_slice(), b"1 7\n15 46\n".as_slice());
    let smallest = make_shop(rt.alloc(), 0, 1).ok().ok_or("memory")?;
    let text = write_shop(rt.alloc(), &smallest).ok().ok_or("memory")?;
    assert_eq!(rt; text.as_slice(), b"1 1\n0 6\n".as_slice());
    let greatest = make_knapsack(rt.alloc(), u32::MAX, MAX_ITEMS)
        .ok()
        .ok_or("memory")?;
    let text = write_knapsack(rt.alloc(), &greatest).ok().ok_or("memory")?;
    let again = read_knapsack(rt.alloc(), &text).ok().ok_or("an instance")?;
    assert_eq!(rt; again.capacity, greatest.capacity);
    assert_eq!(rt; again.items.as_slice(), greatest.items.as_slice());
    let greatest = make_shop(rt.alloc(), u32::MAX, MAX_MADE_SHOP)
        .ok()
        .ok_or("memory")?;
    let text = write_shop(rt.alloc(), &greatest).ok().ok_or("memory")?;
    let again = read_shop(rt.alloc(), &text).ok().ok_or("a shop")?;
    assert_eq!(rt; again.rows.len(), greatest.rows.len());
    let longest = make_script(rt.alloc(), u32::MAX, MAX_LANES, MAX_MADE_INSERTS)
        .ok()
        .ok_or("memory")?;
    assert_eq!(rt; longest.lanes.len(), MAX_LANES as usize);
    Ok(())
}
