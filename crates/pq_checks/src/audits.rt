//! The history of a check, audited.
ghost use Rattle.std.specs.Prelude.{◌≡◌, length, IfOk};
ghost use Rattle.pq_model.specs.History.{IsLegal, left};
ghost use Rattle.pq_model.specs.Passes.{IsActual, lanes};
ghost use Rattle.pq_lanes.specs.Lanes.{on_tapes, AreNumbered};

use pq_api::SharedQueue;
use pq_io::NoMemory;
use pq_lanes::{Lanes, history_of};
use pq_model::{Verdict, audit};
use pq_tape::{History, MAX_MARKS};
use std::alloc::Global;

/// Why a history was not found legal.
#[derive(Clone, Copy, Debug, PartialEq, Eq)]
pub enum AuditFault {
    /// There was no memory for the history or the audit.
    NoMemory,
    /// There are more marks than an audit takes.
    TooLong,
    /// The mark at this place is no step.
    Bad { place: u32 },
    /// The audit leaves another number of entries than the closed queue.
    Left { audited: u32, closed: u32 },
}

impl From<NoMemory> for AuditFault {
    ghost from_gives = { λ _ _. Unit {0} };

    fn from(_refusal: NoMemory) -> AuditFault {
        AuditFault::NoMemory
    }
}

/// Ends the queue of a check, puts the calls of all seats by place, and audits them: the actual history.
pub fn audited<Q: SharedQueue>(
    alloc: Global,
    queue: Q,
    capacity: u32,
    ran: Lanes<Q::Pass>,
) -> Result<History, AuditFault>
    requires own { Q.belongs queue ran.pass }
    requires capacity { capacity ≡ Q.capacity_of queue }
    requires all { length ran.tapes.items ≡ Q.seats_of queue }
    requires tapes { on_tapes ran.tapes.items ≡ lanes (Q.known ran.pass) }
    requires numbered { AreNumbered 1 (lanes (Q.known ran.pass)) }
    ensures actual { IfOk result (λ h. IsActual (Q.known ran.pass) h.marks) }
    ensures legal { IfOk result (λ h. IsLegal (Q.seats_of queue) capacity h.marks) }
    ensures left { IfOk result (λ h. h.left ≡ length (left h.marks)) }
{
    let history = history_of(alloc, queue, capacity, ran)?;
    if history.marks.len() > MAX_MARKS as usize {
        return Err(AuditFault::TooLong);
    }
    match audit(alloc, &history.marks, history.head.seats, capacity)? {
        Verdict::Bad { place } => Err(AuditFault::Bad { place }),
        Verdict::Legal { left } if left != history.left => Err(AuditFault::Left {
            audited: left,
            closed: history.left,
        }),
        Verdict::Legal { left: _ } => Ok(history),
    }
}
