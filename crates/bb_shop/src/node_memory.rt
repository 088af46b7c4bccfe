//! The memory of a node: one piece, of the smallest of a few sizes that is enough.
ghost use Rattle.std.specs.Prelude.{◌≡◌, ◌+◌, ◌<◌, ◌≤◌, length, replicate, set, IfOk};
ghost use Rattle.inst_text.specs.Limits.{max_jobs, max_machines, max_operations};
ghost use Rattle.bb_shop.specs.Dispatching.{number_in};
ghost use Rattle.bb_shop.specs.Memory.{times_of, bytes_of};

use inst_text::{MAX_JOBS, MAX_MACHINES, MAX_OPERATIONS};
use pq_io::NoMemory;
use std::alloc::Global;

// How many ready times, and how many numbers below 256, each size has room for.
const TINY_TIMES: usize = 8;

const TINY_BYTES: usize = 24;

const SMALL_TIMES: usize = 16;

const SMALL_BYTES: usize = 72;

const MIDDLE_TIMES: usize = 32;

const MIDDLE_BYTES: usize = 160;

const LARGE_TIMES: usize = 64;

const LARGE_BYTES: usize = 512;

const MOST_TIMES: usize = (MAX_JOBS + MAX_MACHINES) as usize;

const MOST_BYTES: usize = (MAX_JOBS + MAX_OPERATIONS) as usize;

/// The numbers of a node: ready times, and numbers below 256. Most shops are small, and a piece of memory of a known
/// size is copied fast and used again for the next node.
#[derive(Debug, Drop)]
pub(crate) enum NodeMemory {
    Tiny(Box<TinyMemory>),
    Small(Box<SmallMemory>),
    Middle(Box<MiddleMemory>),
    Large(Box<LargeMemory>),
    Most(Box<MostMemory>),
}

/// Room for `TINY_TIMES` ready times and `TINY_BYTES` numbers below 256.
#[derive(Clone, Copy, Debug)]
pub(crate) struct TinyMemory {
    times: [u32; TINY_TIMES],
    bytes: [u8; TINY_BYTES],
}

/// Room for `SMALL_TIMES` ready times and `SMALL_BYTES` numbers below 256.
#[derive(Clone, Copy, Debug)]
pub(crate) struct SmallMemory {
    times: [u32; SMALL_TIMES],
    bytes: [u8; SMALL_BYTES],
}

/// Room for `MIDDLE_TIMES` ready times and `MIDDLE_BYTES` numbers below 256.
#[derive(Clone, Copy, Debug)]
pub(crate) struct MiddleMemory {
    times: [u32; MIDDLE_TIMES],
    bytes: [u8; MIDDLE_BYTES],
}

/// Room for `LARGE_TIMES` ready times and `LARGE_BYTES` numbers below 256.
#[derive(Clone, Copy, Debug)]
pub(crate) struct LargeMemory {
    times: [u32; LARGE_TIMES],
    bytes: [u8; LARGE_BYTES],
}

/// Room for `MOST_TIMES` ready times and `MOST_BYTES` numbers below 256.
#[derive(Clone, Copy, Debug)]
pub(crate) struct MostMemory {
    times: [u32; MOST_TIMES],
    bytes: [u8; MOST_BYTES],
}

/// What dispatching an operation changes: the ready times of its job and of its machine, which become its end, the
/// job's next step, and the place behind the jobs dispatched so far, which gets the job.
#[derive(Clone, Copy)]
pub(crate) struct Change {
    /// Where the job's ready time and its next step stand.
    pub(crate) job: usize,
    /// Where the machine's ready time stands.
    pub(crate) machine: usize,
    /// When the operation ends.
    pub(crate) end: u32,
    /// Where the dispatched job goes.
    pub(crate) place: usize,
}

// Makes the change. Constant time.
fn write(times: &mut [u32], bytes: &mut [u8], change: Change)
    requires job { change.job < length times.old }
    requires machine { change.machine < length times.old }
    requires step { change.job < length bytes.old }
    requires small { number_in bytes.old change.job < 255 }
    requires byte { change.job < 256 }
    requires place { change.place < length bytes.old }
    ensures times { times.new ≡ set (set times.old change.job change.end) change.machine change.end }
    ensures bytes { bytes.new ≡
        set (set bytes.old change.job (number_in bytes.old change.job + 1)) change.place change.job }
{
    times[change.job] = change.end;
    times[change.machine] = change.end;
    bytes[change.job] += 1;
    bytes[change.place] = change.job as u8;
}

impl NodeMemory {
    /// Memory with room for so many ready times and so many small numbers at least, all of them 0. Linear in its size.
    pub(crate) fn cleared(alloc: Global, times: usize, bytes: usize) -> Result<NodeMemory, NoMemory>
        requires times { times ≤ max_jobs + max_machines }
        requires bytes { bytes ≤ max_jobs + max_operations }
        ensures times { IfOk result (λ m. times ≤ length (times_of m)) }
        ensures bytes { IfOk result (λ m. bytes ≤ length (bytes_of m)) }
        ensures no_time { IfOk result (λ m. times_of m ≡ replicate (length (times_of m)) 0) }
        ensures no_byte { IfOk result (λ m. bytes_of m ≡ replicate (length (bytes_of m)) 0) }
    {
        if times <= TINY_TIMES && bytes <= TINY_BYTES {
            let memory = TinyMemory {
                times: [0; TINY_TIMES],
                bytes: [0; TINY_BYTES],
            };
            return Ok(NodeMemory::Tiny(Box::new(alloc, memory)?));
        }
        if times <= SMALL_TIMES && bytes <= SMALL_BYTES {
            let memory = SmallMemory {
                times: [0; SMALL_TIMES],
                bytes: [0; SMALL_BYTES],
            };
            return Ok(NodeMemory::Small(Box::new(alloc, memory)?));
        }
        if times <= MIDDLE_TIMES && bytes <= MIDDLE_BYTES {
            let memory = MiddleMemory {
                times: [0; MIDDLE_TIMES],
                bytes: [0; MIDDLE_BYTES],
            };
            return Ok(NodeMemory::Middle(Box::new(alloc, memory)?));
        }
        if times <= LARGE_TIMES && bytes <= LARGE_BYTES {
            let memory = LargeMemory {
                times: [0; LARGE_TIMES],
                bytes: [0; LARGE_BYTES],
            };
            return Ok(NodeMemory::Large(Box::new(alloc, memory)?));
        }
        let memory = MostMemory {
            times: [0; MOST_TIMES],
            bytes: [0; MOST_BYTES],
        };
        Ok(NodeMemory::Most(Box::new(alloc, memory)?))
    }

    /// The ready times. Constant time.
    pub(crate) fn times(&self) -> &[u32]
        ensures { result.now ≡ times_of self.now }
    {
        match self {
            NodeMemory::Tiny(memory) => &memory.times,
            NodeMemory::Small(memory) => &memory.times,
            NodeMemory::Middle(memory) => &memory.times,
            NodeMemory::Large(memory) => &memory.times,
            NodeMemory::Most(memory) => &memory.times,
        }
    }

    /// The small numbers. Constant time.
    pub(crate) fn bytes(&self) -> &[u8]
        ensures { result.now ≡ bytes_of self.now }
    {
        match self {
            NodeMemory::Tiny(memory) => &memory.bytes,
            NodeMemory::Small(memory) => &memory.bytes,
            NodeMemory::Middle(memory) => &memory.bytes,
            NodeMemory::Large(memory) => &memory.bytes,
            NodeMemory::Most(memory) => &memory.bytes,
        }
    }

    /// A copy with this change. Linear in the size of the memory.
    pub(crate) fn changed(&self, alloc: Global, change: Change) -> Result<NodeMemory, NoMemory>
        requires job { change.job < length (times_of self.now) }
        requires machine { change.machine < length (times_of self.now) }
        requires step { change.job < length (bytes_of self.now) }
        requires small { number_in (bytes_of self.now) change.job < 255 }
        requires byte { change.job < 256 }
        requires place { change.place < length (bytes_of self.now) }
        ensures times { IfOk result (λ m.
            times_of m ≡ set (set (times_of self.now) change.job change.end) change.machine change.end) }
        ensures bytes { IfOk result (λ m. bytes_of m ≡ set
            (set (bytes_of self.now) change.job (number_in (bytes_of self.now) change.job + 1))
            change.place change.job) }
    {
        match self {
            NodeMemory::Tiny(memory) => {
                let mut copy = Box::new(alloc, **memory)?;
                let numbers = &mut *copy;
                write(&mut numbers.times, &mut numbers.bytes, change);
                Ok(NodeMemory::Tiny(copy))
            }
            NodeMemory::Small(memory) => {
                let mut copy = Box::new(alloc, **memory)?;
                let numbers = &mut *copy;
                write(&mut numbers.times, &mut numbers.bytes, change);
                Ok(NodeMemory::Small(copy))
            }
            NodeMemory::Middle(memory) => {
                let mut copy = Box::new(alloc, **memory)?;
                let numbers = &mut *copy;
                write(&mut numbers.times, &mut numbers.bytes, change);
                Ok(NodeMemory::Middle(copy))
            }
            NodeMemory::Large(memory) => {
                let mut copy = Box::new(alloc, **memory)?;
                let numbers = &mut *copy;
                write(&mut numbers.times, &mut numbers.bytes, change);
                Ok(NodeMemory::Large(copy))
            }
            NodeMemory::Most(memory) => {
                let mut copy = Box::new(alloc, **memory)?;
                let numbers = &mut *copy;
                write(&mut numbers.times, &mut numbers.bytes, change);
                Ok(NodeMemory::Most(copy))
            }
        }
    }
}
