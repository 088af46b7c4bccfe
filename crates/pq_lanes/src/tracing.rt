//! A script traced on a queue: opened, run and closed.
ghost use Rattle.std.specs.Prelude.{◌≡◌, ◌≤◌, All, length, IfOk};
ghost use Rattle.pq_model.specs.declared.marks.Mark.{Mark};
ghost use Rattle.pq_model.specs.History.{left};
ghost use Rattle.pq_tape.specs.HistoryText.{HasLine};
ghost use Rattle.inst_text.specs.Script.{IsScript};
ghost use Rattle.pq_lanes.specs.Tracing.{IsTraceOf};

use crate::ending::history_of;
use crate::running::run_lanes;
use inst_text::Script;
use pq_api::BoundedQueue;
use pq_io::NoMemory;
use pq_tape::History;
use std::alloc::Global;
use std::sync::Wait;
use std::thread::Threads;

/// The history of the script, run on a new queue of this capacity with a seat for each lane.
///
/// The memory for the queue and the tapes is taken before the first call on the queue, and after the last one that
/// for the list of tapes, the marks and the entries that are left. With several lanes one script has many histories.
pub fn trace_script<Rt: Threads + Wait + Sync, Q: BoundedQueue>(
    rt: &Rt,
    alloc: Global,
    script: &Script,
    capacity: u32,
    gate: Q::Gate,
) -> Result<History, NoMemory>
    requires lanes { (length script.now ≤ Q.SEATS) × (length script.now ≤ capacity) }
    requires capacity { capacity ≤ Q.CAPACITY }
    ensures head { IfOk result (λ h. h.head ≡ record { seats = length script.now; capacity = capacity }) }
    ensures trace { IfOk result (λ h. IsTraceOf capacity script.now h.marks) }
    ensures lines { IfOk result (λ h. All (λ (x : Mark). HasLine x.act x.reply) h.marks) }
    ensures left { IfOk result (λ h. h.left ≡ length (left h.marks)) }
{
    let seats = lane_count(script);
    let (queue, passes) = Q::open(alloc, capacity, seats, gate)?;
    let ran = run_lanes(rt, alloc, &queue, passes, script)?;
    let history = history_of(alloc, queue, capacity, ran)?;
    Ok(history)
}

// How many lanes there are, and what is known of the whole script.
fn lane_count(script: &Script) -> u32
    ensures count { result ≡ length script.now }
    ensures limits { IsScript script.now }
{
    script.lanes.len() as u32
}
