//! Why there is no answer, and what becomes of it on its way up.

ghost use Rattle.std.specs.Prelude.{◌≡◌};

use crate::status::Status;
use cli_words::WordsRefusal;
use pq_io::{BadInput, InputRefusal, NoMemory, ReadRefusal};
use std::alloc::AllocError;

/// Why there is no answer to an input.
#[derive(Clone, Copy, Debug, PartialEq, Eq)]
pub enum Refusal {
    BadInput(BadInput),
    NodeLimit { asked: u64, limit: u32 },
    Full { place: u32 },
    ReadFault,
    NoMemory,
    ProofLimit,
}

impl From<NoMemory> for Refusal {
    ghost use Rattle.pq_cli.specs.declared.refusal.Refusal.TheVariants as refusals;

    ghost from_gives = { λ _ e. e ≡ refusals.NoMemory };

    fn from(_error: NoMemory) -> Refusal {
        Refusal::NoMemory
    }
}

impl From<AllocError> for Refusal {
    ghost use Rattle.pq_cli.specs.declared.refusal.Refusal.TheVariants as refusals;

    ghost from_gives = { λ _ e. e ≡ refusals.NoMemory };

    fn from(_error: AllocError) -> Refusal {
        Refusal::NoMemory
    }
}

impl From<ReadRefusal> for Refusal {
    ghost use Rattle.pq_cli.specs.Refusals.{of_reading};

    ghost from_gives = { λ r e. e ≡ of_reading r };

    fn from(refusal: ReadRefusal) -> Refusal {
        match refusal {
            ReadRefusal::BadInput(fault) => Refusal::BadInput(fault),
            ReadRefusal::NoMemory => Refusal::NoMemory,
        }
    }
}

impl From<InputRefusal> for Refusal {
    ghost use Rattle.pq_cli.specs.Refusals.{of_input};

    ghost from_gives = { λ r e. e ≡ of_input r };

    fn from(refusal: InputRefusal) -> Refusal {
        match refusal {
            InputRefusal::BadInput(fault) => Refusal::BadInput(fault),
            InputRefusal::ReadFault => Refusal::ReadFault,
            InputRefusal::NoMemory => Refusal::NoMemory,
        }
    }
}

impl From<WordsRefusal> for Status {
    ghost use Rattle.pq_cli.specs.Refusals.{of_words};

    ghost from_gives = { λ r s. s ≡ of_words r };

    fn from(refusal: WordsRefusal) -> Status {
        match refusal {
            WordsRefusal::BadWords => Status::BadWords,
            WordsRefusal::NoMemory => Status::NoMemory,
        }
    }
}

impl From<Refusal> for Status {
    ghost use Rattle.pq_cli.specs.Refusals.{status_of};

    ghost from_gives = { λ r s. s ≡ status_of r };

    fn from(refusal: Refusal) -> Status {
        match refusal {
            Refusal::BadInput(fault) => Status::BadInput(fault),
            Refusal::NodeLimit { asked, limit } => Status::NodeLimit { asked, limit },
            Refusal::Full { place } => Status::Full { place },
            Refusal::ReadFault => Status::ReadFault,
            Refusal::NoMemory => Status::NoMemory,
            Refusal::ProofLimit => Status::ProofLimit,
        }
    }
}
