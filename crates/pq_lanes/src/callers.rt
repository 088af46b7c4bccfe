//! The callers of a script, one for each lane: what each has, their work in threads, and what they leave.
ghost use Rattle.std.specs.Prelude.{◌≡◌, ◌+◌, ◌<◌, ◌≤◌, [], ◌∷◌, length, map, IfOk, slice_index_or};
ghost use Rattle.std.specs.List.{AllByRecursion};
ghost use Rattle.pq_model.specs.Passes.{lane, lanes, Knows, fresh};
ghost use Rattle.pq_api.specs.Answers.{EachAt};
ghost use Rattle.inst_text.specs.Limits.{max_commands, max_lanes};
ghost use Rattle.inst_text.specs.Script.{IsCommand, IsScript};
ghost use Rattle.pq_lanes.specs.Lanes.{HasMade, acts_of, on_tapes};

use crate::lane::run_lane;
use crate::lanes::Lanes;
use inst_text::Script;
use pq_api::{BoundedQueue, SharedQueue};
use pq_io::NoMemory;
use pq_model::{Act, MAX_SEATS};
use pq_tape::Tape;
use std::alloc::Global;
use std::sync::Wait;
use std::thread::{Threads, for_each_mut};

/// A caller: its pass, and the tape that its calls are put on.
#[derive(Drop)]
pub(crate) struct Caller<P> {
    pub(crate) pass: P,
    pub(crate) tape: Tape,
}

// The commands of the lane of this place.
fn commands_of(script: &Script, place: usize) -> &[Act]
    requires { place < length script.now }
    ensures lane { result.now ≡ slice_index_or script.now place [] }
    ensures few { length result.now ≤ max_commands }
    ensures commands { AllByRecursion IsCommand result.now }
    ensures place { place < max_lanes }
{
    lane_at(script, place)
}

// The same, and what is known of the whole script.
fn lane_at(script: &Script, place: usize) -> &[Act]
    requires { place < length script.now }
    ensures lane { result.now ≡ slice_index_or script.now place [] }
    ensures limits { IsScript script.now }
{
    script.lanes[place].as_slice()
}

/// A caller for each pass, whose tape has the pass's number, and room for all commands of the lane of that number.
pub(crate) fn callers_of<Q: SharedQueue>(
    alloc: Global,
    queue: &Q,
    passes: Vec<Q::Pass>,
    script: &Script,
) -> Result<Vec<Caller<Q::Pass>>, NoMemory>
    requires fresh { EachAt (λ k p. Q.belongs queue.now p × (Q.known p ≡ fresh (k + 1))) passes.items }
    requires lanes { length script.now ≡ length passes.items }
    ensures count { IfOk result (λ cs. length cs.items ≡ length script.now) }
    ensures fresh { IfOk result (λ cs.
        EachAt (λ k c. Q.belongs queue.now c.pass × (Q.known c.pass ≡ fresh (k + 1))) cs.items) }
    ensures tapes { IfOk result (λ cs. EachAt (λ k c. (c.tape.lane ≡ lane (k + 1) [])
        × (length (slice_index_or script.now k []) ≤ c.tape.room)) cs.items) }
{
    let _queue = queue;
    let mut callers = Vec::with_capacity(alloc, passes.len())?;
    for pass in passes {
        let place = callers.len();
        let room = commands_of(script, place).len();
        let tape = Tape::new(alloc, place as u32 + 1, room as u32)?;
        callers.push(Caller { pass, tape })?;
    }
    Ok(callers)
}

/// All callers run their lanes, each in a thread of its own. Where a thread cannot be had, the work is done by this
/// one.
pub(crate) fn run_all<Rt: Threads + Wait + Sync, Q: BoundedQueue>(
    rt: &Rt,
    queue: &Q,
    script: &Script,
    callers: &mut [Caller<Q::Pass>],
)
    requires count { length callers.old ≡ length script.now }
    requires fresh { EachAt (λ k c. Q.belongs queue.now c.pass × (Q.known c.pass ≡ fresh (k + 1))) callers.old }
    requires tapes { EachAt (λ k c. (c.tape.lane ≡ lane (k + 1) [])
        × (length (slice_index_or script.now k []) ≤ c.tape.room)) callers.old }
    ensures own { EachAt (λ k c. Q.belongs queue.now c.pass) callers.new }
    ensures made { EachAt (λ k c. HasMade (Q.seats_of queue.now) (Q.capacity_of queue.now) (k + 1)
        (slice_index_or script.now k []) (Q.known c.pass) c.tape.lane) callers.new }
{
    let work = |k: usize, caller: &mut Caller<Q::Pass>|
        requires { (k < length script.now) × Q.belongs queue.now caller.now.pass
            × (Q.known caller.now.pass ≡ fresh (k + 1))
            × (caller.now.tape.lane ≡ lane (k + 1) [])
            × (length (slice_index_or script.now k []) ≤ caller.now.tape.room) }
        ensures own { Q.belongs queue.entry.now caller.exit.now.pass }
        ensures made { HasMade (Q.seats_of queue.entry.now) (Q.capacity_of queue.entry.now) (k + 1)
            (slice_index_or script.entry.now k []) (Q.known caller.exit.now.pass) caller.exit.now.tape.lane }
    { run_one(rt, queue, script, k, caller) };
    for_each_mut(rt, callers, MAX_SEATS as usize, &work);
}

// The caller of this place runs its lane.
fn run_one<Rt: Wait + Sync, Q: BoundedQueue>(
    rt: &Rt,
    queue: &Q,
    script: &Script,
    k: usize,
    caller: &mut Caller<Q::Pass>,
)
    requires lane { k < length script.now }
    requires own { Q.belongs queue.now caller.old.pass }
    requires fresh { Q.known caller.old.pass ≡ fresh (k + 1) }
    requires tape { (caller.old.tape.lane ≡ lane (k + 1) [])
        × (length (slice_index_or script.now k []) ≤ caller.old.tape.room) }
    ensures own { Q.belongs queue.now caller.new.pass }
    ensures made { HasMade (Q.seats_of queue.now) (Q.capacity_of queue.now) (k + 1) (slice_index_or script.now k [])
        (Q.known caller.new.pass) caller.new.tape.lane }
{
    run_lane(
        rt,
        queue,
        &mut caller.pass,
        &mut caller.tape,
        commands_of(script, k),
    );
}

/// All passes joined into the first, and all tapes.
pub(crate) fn joined<Q: SharedQueue>(
    alloc: Global,
    queue: &Q,
    callers: Vec<Caller<Q::Pass>>,
) -> Result<Lanes<Q::Pass>, NoMemory>
    requires some { 1 ≤ length callers.items }
    requires own { EachAt (λ k c. Q.belongs queue.now c.pass) callers.items }
    requires made { EachAt (λ k c. HasMade (Q.seats_of queue.now) (Q.capacity_of queue.now) (k + 1)
        (acts_of (Q.known c.pass).calls) (Q.known c.pass) c.tape.lane) callers.items }
    ensures own { IfOk result (λ r. Q.belongs queue.now r.pass) }
    ensures lanes { IfOk result (λ r. lanes (Q.known r.pass) ≡ map (λ c. c.tape.lane) callers.items) }
    ensures tapes { IfOk result (λ r. on_tapes r.tapes.items ≡ lanes (Q.known r.pass)) }
    ensures knows { IfOk result (λ r. Knows (Q.seats_of queue.now) (Q.capacity_of queue.now) (Q.known r.pass)) }
{
    let mut tapes = Vec::with_capacity(alloc, callers.len())?;
    let mut others = callers.into_iter();
    let Some(Caller { mut pass, tape }) = others.next() else {
        unreachable!()
    };
    tapes.push(tape)?;
    for caller in others {
        let Caller { pass: other, tape } = caller;
        queue.join(&mut pass, other);
        tapes.push(tape)?;
    }
    Ok(Lanes { pass, tapes })
}
