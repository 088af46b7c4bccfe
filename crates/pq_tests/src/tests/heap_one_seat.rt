//! The heap with one seat, under the checks of every queue.
use pq_api::Open;
use pq_checks::{against_a_list, leaves, one_seat_rows, sorted};
use pq_hunt::HuntHeap;
use pq_words::Entry;

#[test]
fn rows_are_answered(rt: HostRuntime) {
    let checked = one_seat_rows::<HostRuntime, HuntHeap<Open>>(&rt, rt.alloc());
    assert_eq!(rt; checked, Ok(31));
}

#[test]
fn drawn_calls_are_answered_as_a_list_answers(rt: HostRuntime) {
    for (capacity, seed, calls) in [(3, 1, 500), (40, 2, 2_000), (1_048_576, 3, 2_000)] {
        let checked = against_a_list::<HostRuntime, HuntHeap<Open>>(
            &rt,
            rt.alloc(),
            Open,
            capacity,
            capacity,
            seed,
            calls,
        );
        let (made, held) = checked.expect(&rt, "all are answered so");
        assert_eq!(rt; leaves(rt.alloc(), made, calls, &held), Ok(()));
    }
}

#[test]
fn entries_come_out_in_order(rt: HostRuntime) {
    let entries = [
        Entry { key: 5, id: 1 },
        Entry { key: 3, id: 2 },
        Entry { key: 3, id: 1 },
        Entry { key: 9, id: 0 },
        Entry { key: 3, id: 2 },
    ];
    let found = sorted::<HostRuntime, HuntHeap<Open>>(&rt, rt.alloc(), Open, &entries);
    let (taken, closed) = found.expect(&rt, "there is memory");
    let keys_and_ids = [(3, 1), (3, 2), (3, 2), (5, 1), (9, 0)];
    assert_eq!(rt; taken.len(), keys_and_ids.len());
    for (e, (key, id)) in taken.iter().zip(keys_and_ids) {
        assert_eq!(rt; (e.key, e.id), (key, id));
    }
    assert_eq!(rt; closed.length, 11);
    assert!(rt; closed.left.is_empty());
}
