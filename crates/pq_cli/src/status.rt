//! How a call of the program ends.

ghost use Rattle.std.specs.Prelude.{◌≡◌};
ghost use Rattle.pq_cli.specs.Statuses.{code_of};

use pq_io::BadInput;

/// How a call of the program ended.
#[derive(Clone, Copy, Debug, PartialEq, Eq)]
pub enum Status {
    /// The input was read to its end, and the whole answer was written.
    Ok,
    /// An audit, a check or a verification: the output names the first place, clause or token that fails.
    Illegal,
    /// No command reads the words.
    BadWords,
    /// The input has no reading; this is its first fault.
    BadInput(BadInput),
    /// The search asked for more nodes than the limit: so many in all.
    NodeLimit { asked: u64, limit: u32 },
    /// The insert at this place of the queue's history found the queue full.
    Full { place: u32 },
    /// A read of the input failed.
    ReadFault,
    /// A write failed.
    WriteFault,
    /// There was no memory for the work.
    NoMemory,
    /// The proof has more tokens than a proof may have.
    ProofLimit,
}

impl Status {
    /// The number that the process ends with.
    pub fn code(self) -> u8
        ensures { result ≡ code_of self }
    {
        match self {
            Status::Ok => 0,
            Status::Illegal => 1,
            Status::BadWords => 2,
            Status::BadInput(_) => 3,
            Status::NodeLimit { .. } => 4,
            Status::Full { .. } => 5,
            Status::ReadFault => 6,
            Status::WriteFault => 7,
            Status::NoMemory => 8,
            Status::ProofLimit => 9,
        }
    }
}
