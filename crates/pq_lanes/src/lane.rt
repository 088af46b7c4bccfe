//! One caller's work: the commands of its lane, in order.
ghost use Rattle.std.specs.Prelude.{◌≡◌, ◌-◌, ◌<◌, ◌≤◌, ◌++◌, [], ◌∷◌, length, ℕ, List};
ghost use Rattle.std.specs.List.{AllByRecursion};
ghost use Rattle.pq_model.specs.declared.marks.Act.{Act};
ghost use Rattle.pq_model.specs.Passes.{Knows};
ghost use Rattle.pq_api.specs.Limits.{call_limit};
ghost use Rattle.pq_api.specs.Answers.{MakesCall};
ghost use Rattle.inst_text.specs.Limits.{max_commands};
ghost use Rattle.inst_text.specs.Script.{IsCommand};
ghost use Rattle.pq_lanes.specs.Lanes.{HasMade};

use crate::answers::{Answer, answer_to_insert, answer_to_remove, answer_to_remove_below};
use pq_api::BoundedQueue;
use pq_model::Act;
use pq_tape::Tape;
use std::sync::Wait;

/// Runs the commands of a lane in order with this pass, and puts each call on the tape, which has room for all.
pub(crate) fn run_lane<Rt: Wait + Sync, Q: BoundedQueue>(
    rt: &Rt,
    queue: &Q,
    pass: &mut Q::Pass,
    tape: &mut Tape,
    acts: &[Act],
)
    requires own { Q.belongs queue.now pass.old }
    requires none { HasMade (Q.seats_of queue.now) (Q.capacity_of queue.now) (Q.known pass.old).number []
        (Q.known pass.old) tape.old.lane }
    requires commands { AllByRecursion IsCommand acts.now }
    requires few { length acts.now ≤ max_commands }
    requires room { length acts.now ≤ tape.old.room }
    ensures own { Q.belongs queue.now pass.new }
    ensures made { HasMade (Q.seats_of queue.now) (Q.capacity_of queue.now) (Q.known pass.old).number acts.now
        (Q.known pass.new) tape.new.lane }
{
    for act in acts {
        run_command(rt, queue, pass, tape, *act);
    }
}

// Runs one more command, and puts its call on the tape.
fn run_command<Rt: Wait + Sync, Q: BoundedQueue>(
    rt: &Rt,
    queue: &Q,
    pass: &mut Q::Pass,
    tape: &mut Tape,
    act: Act,
)
    requires own { Q.belongs queue.now pass.old }
    requires command { IsCommand act }
    requires few { length (Q.known pass.old).calls < call_limit - 1 }
    requires room { length tape.old.lane.calls < tape.old.room }
    ensures own { Q.belongs queue.now pass.new }
    ensures made { (number : ℕ) (acts : List Act) →
        HasMade (Q.seats_of queue.now) (Q.capacity_of queue.now) number acts (Q.known pass.old) tape.old.lane →
        HasMade (Q.seats_of queue.now) (Q.capacity_of queue.now) number (acts ++ act ∷ []) (Q.known pass.new)
        tape.new.lane }
    ensures room { tape.new.room ≡ tape.old.room }
{
    let answer = call(rt, queue, pass, act);
    let Ok(()) = tape.add(answer.place, act, answer.reply) else {
        unreachable!()
    };
}

/// Makes a call of the queue: one of its three, by what the act asks.
pub fn call<Rt: Wait + Sync, Q: BoundedQueue>(
    rt: &Rt,
    queue: &Q,
    pass: &mut Q::Pass,
    act: Act,
) -> Answer
    requires own { Q.belongs queue.now pass.old }
    requires command { IsCommand act }
    requires few { length (Q.known pass.old).calls < call_limit - 1 }
    ensures own { Q.belongs queue.now pass.new }
    ensures call { MakesCall (Q.known pass.old) result.place act result.reply (Q.known pass.new) }
    ensures knows { Knows (Q.seats_of queue.now) (Q.capacity_of queue.now) (Q.known pass.new) }
{
    match act {
        Act::Insert(entry) => answer_to_insert(queue.insert(rt, pass, entry)),
        Act::Remove => answer_to_remove(queue.remove(rt, pass)),
        Act::RemoveBelow(limit) => answer_to_remove_below(queue.remove_below(rt, pass, limit)),
    }
}
