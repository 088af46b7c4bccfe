//! `trace`: the history of a script that is run on a queue.

ghost use Rattle.std.specs.Prelude.{◌≡◌, ◌+◌, ◌-◌, ◌<◌, ◌≤◌, ◌++◌, [], ◌∷◌, length, min, IfOk, OnOk, ℕ, List};
ghost use Rattle.std.specs.List.{AllByRecursion};
ghost use Rattle.pq_model.specs.declared.marks.Act.{Act};
ghost use Rattle.pq_model.specs.History.{IsStep, after};
ghost use Rattle.pq_model.specs.Passes.{fresh};
ghost use Rattle.pq_api.specs.Limits.{call_limit};
ghost use Rattle.pq_api.specs.Plain.{held};
ghost use Rattle.inst_text.specs.Limits.{max_commands};
ghost use Rattle.pq_io.specs.Reading.{Gives};
ghost use Rattle.inst_text.specs.Script.{IsCommand, script_of};
ghost use Rattle.cli_words.specs.declared.queues.Which.TheVariants.{Plain};
ghost use Rattle.cli_words.specs.Queues.{profile_of};
ghost use Rattle.pq_cli.specs.Commands.{tracing};
ghost use Rattle.pq_cli.specs.Tracing.{IsTracing};
ghost use Rattle.pq_cli.specs.Work.{Meets};

use crate::answer::Answer;
use crate::plain::plain_pass;
use crate::refusal::Refusal;
use inst_text::{Script, read_script};
use pq_api::{BoundedQueue, PlainPass, sizes_are_bounded};
use pq_io::{NoMemory, ReadRefusal};
use pq_lanes::{answer_to_insert, answer_to_remove, answer_to_remove_below, trace_script};
use pq_model::{Act, Mark, Reply};
use pq_tape::{Head, History};
use std::alloc::Global;
use std::sync::Wait;
use std::thread::Threads;

/// A history of the script that the bytes read as, run on a queue of this kind and capacity by one caller for each
/// lane. There may be as many lanes as the queue has seats, and no more than the capacity.
pub fn trace_on<Rt: Threads + Wait + Sync, Q: BoundedQueue>(
    rt: &Rt,
    alloc: Global,
    bytes: &[u8],
    capacity: u32,
    gate: Q::Gate,
) -> Result<Answer, Refusal>
    requires { (1 ≤ capacity) × (capacity ≤ Q.CAPACITY) }
    ensures { Meets (tracing (min Q.SEATS capacity) capacity) bytes.now result }
{
    let script = read_lanes::<Q>(alloc, bytes, capacity)?;
    let history = trace_script::<Rt, Q>(rt, alloc, &script, capacity, gate)?;
    Ok(Answer::Trace(history))
}

// The script that the bytes read as, of as many lanes as there may be on a queue of this kind and capacity.
fn read_lanes<Q: BoundedQueue>(
    alloc: Global,
    bytes: &[u8],
    capacity: u32,
) -> Result<Script, ReadRefusal>
    requires { 1 ≤ capacity }
    ensures exact { Gives (λ s. s) result (script_of (min Q.SEATS capacity) bytes.now) }
    ensures few { IfOk result (λ s. (length s ≤ Q.SEATS) × (length s ≤ capacity)) }
{
    let script = read_script(alloc, bytes, Q::SEATS.min(capacity))?;
    Ok(script)
}

/// The history of the script that the bytes read as, run on a plain queue of this capacity by the caller itself.
///
/// All memory is taken before the first call of the queue. A command takes O(log n) where n entries are held.
pub fn trace(alloc: Global, bytes: &[u8], capacity: u32) -> Result<Answer, Refusal>
    requires { (1 ≤ capacity) × (capacity ≤ (profile_of Plain).most_capacity) }
    ensures { Meets (tracing 1 capacity) bytes.now result }
{
    let script = read_script(alloc, bytes, 1)?;
    let acts = only_lane(&script);
    let mut marks = Vec::with_capacity(alloc, acts.len())?;
    let mut pass = plain_pass(alloc, capacity)?;
    run_lane(&mut marks, &mut pass, acts)?;
    sizes_are_bounded();
    let left = pass.len() as u32;
    Ok(Answer::Trace(History {
        head: Head { seats: 1, capacity },
        marks,
        left,
    }))
}

// The one lane of a script.
fn only_lane(script: &Script) -> &[Act]
    requires { length script.now ≡ 1 }
    ensures { script.now ≡ result.now ∷ [] }
{
    script.lanes[0].as_slice()
}

// Runs the commands in order, and puts the mark of each behind those of the others, for which there is room.
fn run_lane(marks: &mut Vec<Mark>, pass: &mut PlainPass, acts: &[Act]) -> Result<(), NoMemory>
    requires commands { AllByRecursion IsCommand acts.now }
    requires few { length acts.now ≤ max_commands }
    requires fresh { (pass.old.known ≡ fresh 1) × (marks.old.items ≡ []) }
    ensures { OnOk result (IsTracing pass.old.capacity acts.now marks.new.items pass.new) }
{
    for act in acts {
        run_command(marks, pass, *act)?;
    }
    Ok(())
}

// Runs one more command, and puts its mark behind those of the others.
fn run_command(marks: &mut Vec<Mark>, pass: &mut PlainPass, act: Act) -> Result<(), NoMemory>
    requires command { IsCommand act }
    requires few { length pass.old.known.calls < call_limit - 1 }
    ensures { OnOk result ((capacity : ℕ) (acts : List Act) →
        IsTracing capacity acts marks.old.items pass.old →
        IsTracing capacity (acts ++ act ∷ []) marks.new.items pass.new) }
{
    let reply = reply_to(pass, act);
    marks.push(Mark {
        seat: 1,
        act,
        reply,
    })?;
    Ok(())
}

// Makes a call of the queue, and gives its reply.
fn reply_to(pass: &mut PlainPass, act: Act) -> Reply
    requires command { IsCommand act }
    requires few { length pass.old.known.calls < call_limit - 1 }
    ensures step { IsStep 1 pass.old.capacity (held pass.old) act result }
    ensures holds { held pass.new ≡ after (held pass.old) act result }
    ensures counted { length pass.new.known.calls ≡ length pass.old.known.calls + 1 }
    ensures capacity { pass.new.capacity ≡ pass.old.capacity }
{
    match act {
        Act::Insert(entry) => answer_to_insert(pass.add(entry)).reply,
        Act::Remove => answer_to_remove(pass.take()).reply,
        Act::RemoveBelow(limit) => answer_to_remove_below(pass.take_below(limit)).reply,
    }
}
