//! The gates alone, with threads that are held and let go, and with waits that end by their turns.
use pq_api::{Gate, Hold, Open, Pair, Point};
use std::sync::Wait;
use std::sync::atomic::{AtomicBool, Ordering};
use std::thread::{join, yield_now};

const TURNS: u32 = 10_000_000;

const ORDER: Ordering = Ordering::SeqCst;

// Comes to a point by a gate that is lent.
fn come<R: Wait + Sync, G: Gate>(rt: &R, gate: G, point: Point) {
    gate.at(rt, point);
}

#[test]
fn open_gates_let_all_pass(rt: HostRuntime) {
    come(&rt, Open, Point::WorkerNode);
    come(&rt, &Open, Point::WorkerNode);
}

// The first call is held until another thread, which has seen it there, lets it go.
#[test]
fn a_held_call_goes_on_once_it_is_released(rt: HostRuntime) {
    let hold = Hold::new(Point::MoundPath, TURNS);
    let went_on = AtomicBool::new(false);
    let (_, early) = join(
        &rt,
        || {
            come(&rt, &hold, Point::MoundLeft);
            come(&rt, &hold, Point::MoundPath);
            went_on.store(true, ORDER);
        },
        || {
            for _turn in 0..TURNS {
                if hold.held() {
                    break;
                }
                yield_now();
            }
            let early = went_on.load(ORDER);
            hold.release();
            early
        },
    );
    assert!(rt; hold.held());
    assert!(rt; !early);
    assert!(rt; went_on.load(ORDER));
    come(&rt, &hold, Point::MoundPath);
    assert!(rt; !hold.spent());
}

#[test]
fn a_pair_lets_some_pass_and_the_next_two_meet(rt: HostRuntime) {
    let pair = Pair::new(Point::HeapBusy, 1, TURNS);
    come(&rt, &pair, Point::HeapBusy);
    assert!(rt; !pair.met());
    join(
        &rt,
        || come(&rt, &pair, Point::HeapBusy),
        || come(&rt, &pair, Point::HeapBusy),
    );
    assert!(rt; pair.met());
    come(&rt, &pair, Point::HeapBusy);
    assert!(rt; !pair.spent());
}

#[test]
fn waits_end_by_their_turns(rt: HostRuntime) {
    let hold = Hold::new(Point::HeapSift, 3);
    assert!(rt; !hold.held());
    come(&rt, &hold, Point::HeapSift);
    assert!(rt; hold.held() && hold.spent());
    let pair = Pair::new(Point::HeapSift, 0, 3);
    come(&rt, &pair, Point::HeapBusy);
    assert!(rt; !pair.spent());
    come(&rt, &pair, Point::HeapSift);
    assert!(rt; pair.spent() && !pair.met());
}
