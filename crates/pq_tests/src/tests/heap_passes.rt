//! Several passes of one heap, joined and closed.
use pq_api::{Below, BoundedQueue, CloseWhy, Inserted, Open, Removed, SharedQueue};
use pq_hunt::HuntHeap;
use pq_words::Entry;
use std::test::Fail;

// Fewer places are free than there are seats, though one is.
#[test]
fn two_seats_find_it_full(rt: HostRuntime) -> Result<(), Fail> {
    let (queue, mut passes) = HuntHeap::open(rt.alloc(), 2, 2, Open)?;
    let mut second = passes.remove(1);
    let mut first = passes.remove(0);
    let done = queue.insert(&rt, &mut first, Entry { key: 5, id: 0 });
    assert!(rt; matches!(done, Inserted::Done(r) if r.place == 0));
    let done = queue.insert(&rt, &mut first, Entry { key: 3, id: 0 });
    assert!(rt; matches!(done, Inserted::Done(r) if r.place == 1));
    let full = queue.insert(&rt, &mut second, Entry { key: 4, id: 0 });
    assert!(rt; matches!(full, Inserted::Full(r) if r.place == 2));
    queue.join(&mut first, second);
    let Ok(closed) = queue.close(rt.alloc(), first) else {
        panic!(rt; "all passes are joined")
    };
    assert_eq!(rt; closed.length, 3);
    let left = [Entry { key: 3, id: 0 }, Entry { key: 5, id: 0 }];
    assert!(rt; closed.left.as_slice() == left.as_slice());
    Ok(())
}

#[test]
fn a_pass_that_is_out_keeps_it_open(rt: HostRuntime) -> Result<(), Fail> {
    let (queue, mut passes) = HuntHeap::open(rt.alloc(), 4, 2, Open)?;
    let mut second = passes.remove(1);
    let first = passes.remove(0);
    let Err(refused) = queue.close(rt.alloc(), first) else {
        panic!(rt; "a pass is out")
    };
    assert_eq!(rt;
        refused.why,
        CloseWhy::PassesOut {
            joined: 1,
            seats: 2
        }
    );
    let (queue, mut first) = (refused.queue, refused.pass);
    let done = queue.insert(&rt, &mut first, Entry { key: 5, id: 0 });
    assert!(rt; matches!(done, Inserted::Done(r) if r.place == 0));
    assert_eq!(rt; queue.look(&mut second), 1);
    queue.join(&mut first, second);
    let Ok(closed) = queue.close(rt.alloc(), first) else {
        panic!(rt; "all passes are joined")
    };
    assert_eq!(rt; closed.length, 1);
    assert_eq!(rt; closed.left.len(), 1);
    Ok(())
}

// Why three passes of which two are joined are not closed.
const THIRD_OUT: CloseWhy = CloseWhy::PassesOut {
    joined: 2,
    seats: 3,
};

// Two of three passes have made a call each, and are joined. The third has made none, and is joined at last.
#[test]
fn a_pass_without_calls_has_to_be_joined(rt: HostRuntime) -> Result<(), Fail> {
    let (queue, mut passes) = HuntHeap::open(rt.alloc(), 4, 3, Open)?;
    let third = passes.remove(2);
    let mut second = passes.remove(1);
    let mut first = passes.remove(0);
    let done = queue.insert(&rt, &mut first, Entry { key: 5, id: 0 });
    assert!(rt; matches!(done, Inserted::Done(r) if r.place == 0));
    let above = queue.remove_below(&rt, &mut second, 5);
    assert!(rt; matches!(above, Below::Above(r) if r.place == 1));
    queue.join(&mut first, second);
    let Err(refused) = queue.close(rt.alloc(), first) else {
        panic!(rt; "the third pass is out")
    };
    assert_eq!(rt; refused.why, THIRD_OUT);
    let (queue, mut first) = (refused.queue, refused.pass);
    queue.join(&mut first, third);
    let Ok(closed) = queue.close(rt.alloc(), first) else {
        panic!(rt; "all passes are joined")
    };
    assert_eq!(rt; closed.length, 2);
    assert!(rt; closed.left.as_slice() == [Entry { key: 5, id: 0 }].as_slice());
    Ok(())
}

// A pass that was let go can't be joined any more. The queue goes on serving the others, and is never closed.
#[test]
fn a_pass_that_was_let_go_keeps_it_open(rt: HostRuntime) -> Result<(), Fail> {
    let (queue, mut passes) = HuntHeap::open(rt.alloc(), 4, 3, Open)?;
    drop(passes.remove(2));
    let second = passes.remove(1);
    let mut first = passes.remove(0);
    queue.join(&mut first, second);
    let Err(refused) = queue.close(rt.alloc(), first) else {
        panic!(rt; "the third pass is out")
    };
    assert_eq!(rt; refused.why, THIRD_OUT);
    let (queue, mut first) = (refused.queue, refused.pass);
    let done = queue.insert(&rt, &mut first, Entry { key: 5, id: 0 });
    assert!(rt; matches!(done, Inserted::Done(r) if r.place == 0));
    let got = queue.remove(&rt, &mut first);
    assert!(rt; matches!(got, Removed::Got(e, r) if e.key == 5 && r.place == 1));
    let Err(refused) = queue.close(rt.alloc(), first) else {
        panic!(rt; "the third pass is out")
    };
    assert_eq!(rt; refused.why, THIRD_OUT);
    Ok(())
}
