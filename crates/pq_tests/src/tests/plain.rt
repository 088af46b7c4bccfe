//! The plain queue under the checks of every queue.
use pq_api::{Open, PlainQueue};
use pq_checks::{CheckFault, Row, against_a_list, leaves, one_seat_rows, row_is_answered, sorted};
use pq_model::{Act, Reply};
use pq_words::Entry;

#[test]
fn rows_are_answered(rt: HostRuntime) {
    let checked = one_seat_rows::<HostRuntime, PlainQueue>(&rt, rt.alloc());
    assert_eq!(rt; checked, Ok(31));
}

// Wrong wants are found: another reply, a reply too few or too many, and entries that are not left or left besides.
#[test]
fn the_checks_find_what_is_amiss(rt: HostRuntime) {
    let five = Entry { key: 5, id: 1 };
    let acts = [Act::Insert(five), Act::RemoveBelow(5)];
    let right = [Reply::Done, Reply::Above];
    let wrong = [Reply::Done, Reply::Empty];
    let more = [Reply::Done, Reply::Above, Reply::Empty];
    let rows: [(&[Reply], &[Entry], Result<(), CheckFault>); 6] = [
        (&right, &[five], Ok(())),
        (&wrong, &[five], Err(CheckFault::Reply { call: 1 })),
        (&[], &[five], Err(CheckFault::Reply { call: 0 })),
        (&more, &[five], Err(CheckFault::Reply { call: 2 })),
        (&right, &[], Err(CheckFault::Left)),
        (&right, &[five, five], Err(CheckFault::Left)),
    ];
    for (replies, left, wanted) in rows {
        let row = Row {
            capacity: 4,
            acts: &acts,
            replies,
            left,
        };
        let checked = row_is_answered::<HostRuntime, PlainQueue>(&rt, rt.alloc(), Open, row);
        assert_eq!(rt; checked, wanted);
    }
}

#[test]
fn drawn_calls_are_answered_as_a_list_answers(rt: HostRuntime) {
    for (capacity, seed, calls) in [(3, 1, 500), (40, 2, 2_000), (1_048_576, 3, 2_000)] {
        let checked = against_a_list::<HostRuntime, PlainQueue>(
            &rt,
            rt.alloc(),
            Open,
            capacity,
            capacity,
            seed,
            calls,
        );
        let (made, held) = checked.expect(&rt, "all are answered so");
        assert_eq!(rt; leaves(rt.alloc(), made, calls, &held), Ok(()));
    }
}

// A list of another capacity than the queue's is found at the first call that only one of them has room for.
#[test]
fn a_list_of_another_capacity_answers_otherwise(rt: HostRuntime) {
    for (capacity, listed, seed, call) in [(3, 2, 1, 2), (3, 4, 1, 3), (2, 3, 2, 9)] {
        let checked = against_a_list::<HostRuntime, PlainQueue>(
            &rt,
            rt.alloc(),
            Open,
            capacity,
            listed,
            seed,
            500,
        );
        let fault = checked.err();
        assert_eq!(rt; fault, Some(CheckFault::Reply { call }));
    }
}

#[test]
fn entries_come_out_in_order(rt: HostRuntime) {
    let entries = [
        Entry { key: 5, id: 1 },
        Entry { key: 3, id: 2 },
        Entry { key: 3, id: 1 },
        Entry { key: 9, id: 0 },
        Entry { key: 3, id: 2 },
    ];
    let found = sorted::<HostRuntime, PlainQueue>(&rt, rt.alloc(), Open, &entries);
    let (taken, closed) = found.expect(&rt, "there is memory");
    let keys_and_ids = [(3, 1), (3, 2), (3, 2), (5, 1), (9, 0)];
    assert_eq!(rt; taken.len(), keys_and_ids.len());
    for (e, (key, id)) in taken.iter().zip(keys_and_ids) {
        assert_eq!(rt; (e.key, e.id), (key, id));
    }
    assert_eq!(rt; closed.length, 11);
    assert!(rt; closed.left.is_empty());
}
