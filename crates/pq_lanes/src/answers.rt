//! The answers of a queue, whatever was asked: a place and a reply.
ghost use Rattle.std.specs.Prelude.{◌≡◌};
ghost use Rattle.pq_api.specs.Answers.{insert_reply, remove_reply, below_reply};
ghost use Rattle.pq_lanes.specs.Answers.{insert_place, remove_place, below_place};

use pq_api::{Below, Inserted, Removed};
use pq_model::Reply;

/// What a call was answered, and at which place of the history.
#[derive(Clone, Copy, Debug, PartialEq, Eq)]
pub struct Answer {
    pub place: u32,
    pub reply: Reply,
}

/// The answer to an insert.
pub fn answer_to_insert(inserted: Inserted) -> Answer
    ensures { result ≡ record { place = insert_place inserted; reply = insert_reply inserted } }
{
    match inserted {
        Inserted::Done(receipt) => Answer {
            place: receipt.place,
            reply: Reply::Done,
        },
        Inserted::Full(receipt) => Answer {
            place: receipt.place,
            reply: Reply::Full,
        },
    }
}

/// The answer to a removal.
pub fn answer_to_remove(removed: Removed) -> Answer
    ensures { result ≡ record { place = remove_place removed; reply = remove_reply removed } }
{
    match removed {
        Removed::Got(entry, receipt) => Answer {
            place: receipt.place,
            reply: Reply::Got(entry),
        },
        Removed::Empty(receipt) => Answer {
            place: receipt.place,
            reply: Reply::Empty,
        },
    }
}

/// The answer to a removal below a limit.
pub fn answer_to_remove_below(removed: Below) -> Answer
    ensures { result ≡ record { place = below_place removed; reply = below_reply removed } }
{
    match removed {
        Below::Got(entry, receipt) => Answer {
            place: receipt.place,
            reply: Reply::Got(entry),
        },
        Below::Empty(receipt) => Answer {
            place: receipt.place,
            reply: Reply::Empty,
        },
        Below::Above(receipt) => Answer {
            place: receipt.place,
            reply: Reply::Above,
        },
    }
}
