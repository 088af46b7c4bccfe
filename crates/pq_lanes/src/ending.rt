//! The history of a script that was run.
ghost use Rattle.std.specs.Prelude.{◌≡◌, length, IfOk};
ghost use Rattle.pq_model.specs.History.{IsLegal, left};
ghost use Rattle.pq_model.specs.Passes.{lanes, IsActual};
ghost use Rattle.pq_lanes.specs.Lanes.{on_tapes, AreNumbered};

use crate::lanes::Lanes;
use pq_api::{CloseWhy, SharedQueue, sizes_are_bounded};
use pq_io::NoMemory;
use pq_tape::{Head, History, merge};
use std::alloc::Global;

/// Ends the queue, and puts the calls of all lanes by place: the actual history, and how many entries it leaves.
///
/// The pass is one of the queue, which has this capacity and as many seats as there are lanes, and the tapes hold the
/// calls that it keeps. Takes memory for the marks and for the entries that are left, and O(n log n) where n are
/// left; else it is linear in the number of calls.
pub fn history_of<Q: SharedQueue>(
    alloc: Global,
    queue: Q,
    capacity: u32,
    ran: Lanes<Q::Pass>,
) -> Result<History, NoMemory>
    requires own { Q.belongs queue ran.pass }
    requires capacity { capacity ≡ Q.capacity_of queue }
    requires all { length ran.tapes.items ≡ Q.seats_of queue }
    requires tapes { on_tapes ran.tapes.items ≡ lanes (Q.known ran.pass) }
    requires numbered { AreNumbered 1 (lanes (Q.known ran.pass)) }
    ensures head { IfOk result (λ h. h.head ≡ record { seats = Q.seats_of queue; capacity = capacity }) }
    ensures actual { IfOk result (λ h. IsActual (Q.known ran.pass) h.marks) }
    ensures legal { IfOk result (λ h. IsLegal (Q.seats_of queue) capacity h.marks) }
    ensures left { IfOk result (λ h. h.left ≡ length (left h.marks)) }
{
    sizes_are_bounded();
    let Lanes { pass, tapes } = ran;
    let seats = tapes.len() as u32;
    let closed = match queue.close(alloc, pass) {
        Ok(closed) => closed,
        Err(refusal) => match refusal.why {
            CloseWhy::NoMemory => return Err(NoMemory),
            CloseWhy::PassesOut { .. } => unreachable!(),
        },
    };
    let left = closed.left.len() as u32;
    let marks = merge(alloc, tapes)?;
    Ok(History {
        head: Head { seats, capacity },
        marks,
        left,
    })
}
