//! A script run by one caller for each lane.
ghost use Rattle.std.specs.Prelude.{◌≡◌, ◌+◌, length, IfOk};
ghost use Rattle.pq_model.specs.Passes.{lanes, Knows, fresh};
ghost use Rattle.pq_api.specs.Answers.{EachAt};
ghost use Rattle.pq_lanes.specs.Lanes.{HaveRun, on_tapes};

use crate::callers::{callers_of, joined, run_all};
use crate::lanes::Lanes;
use inst_text::Script;
use pq_api::BoundedQueue;
use pq_io::NoMemory;
use std::alloc::Global;
use std::sync::Wait;
use std::thread::Threads;

/// Runs a script on a queue: one caller for each lane runs the lane's commands in order with the pass of the lane's
/// number, in a thread of its own; where a thread cannot be had, its work is done by the calling one. Then all passes
/// are joined into the first. A command `RemoveBelow` runs by `remove_below`.
///
/// The passes are all passes of the queue in the order of their numbers, none has made a call, and there are as many
/// as the script has lanes. For each lane the calls that the joined pass keeps for the lane's number are the lane's
/// commands in order, each once, and no others. There is a tape for each lane, whose seat is the lane's number, with
/// the same calls.
///
/// The tapes take their memory, with room for all commands, before the first call on the queue; the list of them takes
/// its memory after the last. Refused for want of it, the passes are dropped.
pub fn run_lanes<Rt: Threads + Wait + Sync, Q: BoundedQueue>(
    rt: &Rt,
    alloc: Global,
    queue: &Q,
    passes: Vec<Q::Pass>,
    script: &Script,
) -> Result<Lanes<Q::Pass>, NoMemory>
    requires passes { EachAt (λ k p. Q.belongs queue.now p × (Q.known p ≡ fresh (k + 1))) passes.items }
    requires all { length passes.items ≡ Q.seats_of queue.now }
    requires lanes { length passes.items ≡ length script.now }
    ensures own { IfOk result (λ r. Q.belongs queue.now r.pass) }
    ensures ran { IfOk result (λ r. HaveRun 1 script.now (lanes (Q.known r.pass))) }
    ensures tapes { IfOk result (λ r. on_tapes r.tapes.items ≡ lanes (Q.known r.pass)) }
    ensures knows { IfOk result (λ r. Knows (Q.seats_of queue.now) (Q.capacity_of queue.now) (Q.known r.pass)) }
{
    let mut callers = callers_of(alloc, queue, passes, script)?;
    run_all(rt, queue, script, callers.as_mut_slice());
    let ran = joined(alloc, queue, callers)?;
    Ok(ran)
}
