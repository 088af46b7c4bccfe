//! The gate of the checks with a held call.
use pq_api::{Gate, Hold, Point};
use std::sync::Wait;
use std::sync::atomic::{AtomicBool, AtomicU32, Ordering};
use std::thread::yield_now;

const ORDER: Ordering = Ordering::SeqCst;

// For how many turns a held call stays at its point while a call that has to wait for it is under way.
const STAY: u32 = 100_000;

/// A gate that lets all calls pass until it is told to hold one at its point. Then it holds the first that comes there,
/// behind those that it is to skip, until it is released, as `Hold` does. While a call has to wait for the held one, it
/// stays there for some turns more, to see that the other does not get past.
#[derive(Drop)]
pub struct LateHold {
    point: Point,
    skip: u32,
    turns: u32,
    hold: Hold,
    told: AtomicBool,
    came: AtomicU32,
    waited_for: AtomicBool,
    passed: AtomicBool,
    let_go: AtomicBool,
}

impl LateHold {
    /// A gate for a call at this point, which waits for at most this many turns.
    pub fn new(point: Point, turns: u32) -> LateHold {
        LateHold::behind(0, point, turns)
    }

    /// The same, which lets this many calls at the point pass before the one that is held.
    pub fn behind(skip: u32, point: Point, turns: u32) -> LateHold {
        LateHold {
            point,
            skip,
            turns,
            hold: Hold::new(point, turns),
            told: AtomicBool::new(false),
            came: AtomicU32::new(0),
            waited_for: AtomicBool::new(false),
            passed: AtomicBool::new(false),
            let_go: AtomicBool::new(false),
        }
    }

    /// Lets a call at the point be held from now on.
    pub fn hold_next(&self) {
        self.told.store(true, ORDER);
    }

    /// Whether a call has been held.
    pub(crate) fn held(&self) -> bool {
        self.hold.held()
    }

    /// Whether the held call went on since its turns were over.
    pub(crate) fn spent(&self) -> bool {
        self.hold.spent()
    }

    /// Waits until a call is held, and tells whether one is.
    pub(crate) fn waits_for_a_call(&self) -> bool {
        for _turn in 0..self.turns {
            if self.hold.held() {
                return true;
            }
            yield_now();
        }
        false
    }

    /// Lets the held call go on: at once, or where a call has to wait for it, after some turns.
    pub(crate) fn release(&self, waited_for: bool) {
        self.waited_for.store(waited_for, ORDER);
        self.hold.release();
    }

    /// Is told by a call that had to wait, once it has its answer. Whether the held call had not gone on by then.
    pub(crate) fn is_early(&self) -> bool {
        let early = !self.let_go.load(ORDER);
        self.passed.store(true, ORDER);
        early
    }

    // Stays while the call that has to wait is under way, and has not got past.
    fn stay(&self) {
        if !self.waited_for.load(ORDER) {
            return;
        }
        for _turn in 0..STAY {
            if self.passed.load(ORDER) {
                return;
            }
            yield_now();
        }
    }
}

impl Gate for LateHold {
    fn at<R: Wait + Sync>(&self, rt: &R, point: Point) {
        if point != self.point || !self.told.load(ORDER) {
            return;
        }
        if self.came.fetch_add(1, ORDER) != self.skip {
            return;
        }
        self.hold.at(rt, point);
        self.stay();
        self.let_go.store(true, ORDER);
    }
}
