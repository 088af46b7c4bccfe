//! What the operations that are left ask of a machine.
ghost use Rattle.std.specs.Prelude.{ℕ, ◌≡◌, ◌+◌, ◌≤◌, ◌<◌, ◌^◌, length, map};
ghost use Rattle.bb_shop.specs.Bounds.{Busy, greatest};
ghost use Rattle.bb_shop.specs.Loading.{unloaded, with_load, load_in, machine_bound_of};

/// What some operations ask of a machine: the least of their heads, the sum of their times and the least of
/// their tails. Of no operations both least numbers are `u32::MAX`.
#[derive(Clone, Copy, Debug)]
pub struct MachineLoad {
    /// When the first of them starts at the earliest.
    pub head: u32,
    /// The sum of their times.
    pub time: u32,
    /// The least sum of the times behind one of them in its job.
    pub tail: u32,
}

/// The load of no operations.
pub const UNLOADED: MachineLoad = MachineLoad {
    head: u32::MAX,
    time: 0,
    tail: u32::MAX,
};

impl MachineLoad {
    /// With one operation more. Constant time.
    pub fn with(self, head: u32, time: u32, tail: u32) -> MachineLoad
        requires { self.time + time < 2 ^ 32 }
        ensures { result ≡ with_load self (Busy head time tail) }
    {
        MachineLoad {
            head: self.head.min(head),
            time: self.time + time,
            tail: self.tail.min(tail),
        }
    }

    /// The least head, the time and the least tail added up, and 0 of no operations. Constant time.
    pub fn machine_bound(self) -> u32
        requires { machine_bound_of self < 2 ^ 32 }
        ensures { result ≡ machine_bound_of self }
    {
        if self.head == u32::MAX {
            return 0;
        }
        self.head + self.time + self.tail
    }
}

/// The greatest bound of these loads. One pass.
pub fn greatest_machine_bound(loads: &[MachineLoad]) -> u32
    requires { (m : ℕ) → machine_bound_of (load_in loads.now m) < 2 ^ 32 }
    ensures { result ≡ greatest (map machine_bound_of loads.now) }
{
    let mut greatest = 0;
    for load in loads {
        greatest = load.machine_bound().max(greatest);
    }
    greatest
}
