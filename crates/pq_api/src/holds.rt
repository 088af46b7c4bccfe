//! Gates for tests, which hold one call at a point of its work.
use crate::{Gate, Point};
use std::sync::Wait;
use std::sync::atomic::{AtomicBool, AtomicU32, Ordering};
use std::thread::yield_now;

const ORDER: Ordering = Ordering::SeqCst;

/// A gate that holds the first call at its point until it is released. A wait ends after a stated number of
/// turns, each of which gives way to other threads, so that a test cannot hang. It takes no memory, and promises
/// nothing.
#[derive(Drop)]
pub struct Hold {
    point: Point,
    turns: u32,
    came: AtomicBool,
    held: AtomicBool,
    released: AtomicBool,
    spent: AtomicBool,
}

impl Hold {
    /// A gate for the first call at this point, which waits for at most this many turns.
    pub fn new(point: Point, turns: u32) -> Hold {
        Hold {
            point,
            turns,
            came: AtomicBool::new(false),
            held: AtomicBool::new(false),
            released: AtomicBool::new(false),
            spent: AtomicBool::new(false),
        }
    }

    /// Whether a call has come to the point and was held there. This stays so after its release.
    pub fn held(&self) -> bool {
        self.held.load(ORDER)
    }

    /// Lets the held call go on, or the first one where none has come yet.
    pub fn release(&self) {
        self.released.store(true, ORDER);
    }

    /// Whether the wait ended by its turns.
    pub fn spent(&self) -> bool {
        self.spent.load(ORDER)
    }
}

impl Gate for Hold {
    fn at<R: Wait + Sync>(&self, _rt: &R, point: Point) {
        if point != self.point || self.came.swap(true, ORDER) {
            return;
        }
        self.held.store(true, ORDER);
        for _turn in 0..self.turns {
            if self.released.load(ORDER) {
                return;
            }
            yield_now();
        }
        self.spent.store(true, ORDER);
    }
}

/// A gate that lets some calls pass its point, and holds the next until one more has come there. A wait ends after
/// a stated number of turns, as that of `Hold`. It takes no memory, and promises nothing.
#[derive(Drop)]
pub struct Pair {
    point: Point,
    skip: u32,
    turns: u32,
    came: AtomicU32,
    met: AtomicBool,
    spent: AtomicBool,
}

impl Pair {
    /// A gate at this point that lets `skip` calls pass, and holds the next for at most this many turns.
    pub fn new(point: Point, skip: u32, turns: u32) -> Pair {
        Pair {
            point,
            skip,
            turns,
            came: AtomicU32::new(0),
            met: AtomicBool::new(false),
            spent: AtomicBool::new(false),
        }
    }

    /// Whether a held call was let go by one that came after it.
    pub fn met(&self) -> bool {
        self.met.load(ORDER)
    }

    /// Whether the wait ended by its turns.
    pub fn spent(&self) -> bool {
        self.spent.load(ORDER)
    }
}

impl Gate for Pair {
    fn at<R: Wait + Sync>(&self, _rt: &R, point: Point) {
        if point != self.point {
            return;
        }
        let before = self.came.fetch_add(1, ORDER);
        if before != self.skip {
            return;
        }
        for _turn in 0..self.turns {
            if self.came.load(ORDER) != before.wrapping_add(1) {
                self.met.store(true, ORDER);
                return;
            }
            yield_now();
        }
        self.spent.store(true, ORDER);
    }
}
