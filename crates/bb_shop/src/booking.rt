//! When an operation with a start time needs its machine.
ghost use Rattle.std.specs.Prelude.{◌≡◌, ◌≤◌, ◌↔◌, IsTrue};
ghost use Rattle.inst_text.specs.Limits.{max_total};
ghost use Rattle.bb_shop.specs.Judging.{booked, Collide};

use inst_text::Operation;

/// When an operation that has a start time needs its machine.
#[derive(Clone, Copy, Debug)]
pub struct Booking {
    pub machine: u32,
    pub start: u32,
    /// Its start and its time together.
    pub end: u32,
}

impl Booking {
    /// What the operation needs if it starts at this time. Constant time.
    pub fn new(operation: Operation, start: u32) -> Booking
        requires time { operation.time ≤ max_total }
        requires start { start ≤ max_total }
        ensures { result ≡ booked operation start }
    {
        Booking {
            machine: operation.machine,
            start,
            end: start + operation.time,
        }
    }

    /// Tells whether both need one machine, and each starts before the other ends. Constant time.
    pub fn collides(self, other: Booking) -> bool
        ensures { IsTrue result ↔ Collide self other }
    {
        self.machine == other.machine && self.start < other.end && other.start < self.end
    }
}
