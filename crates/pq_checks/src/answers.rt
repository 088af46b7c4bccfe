//! Calls of a queue with one seat, and whether its answers are those that are wanted.
ghost use Rattle.std.specs.Prelude.{◌≡◌, ◌+◌, ◌-◌, ◌<◌, ◌≤◌, [], length, IfOk};
ghost use Rattle.pq_api.specs.Limits.{call_limit};
ghost use Rattle.pq_model.specs.Passes.{fresh};
ghost use Rattle.pq_checks.specs.Limits.{check_limit};
ghost use Rattle.pq_checks.specs.Checks.{IsAlone, answered_from};

use crate::calls::{CheckFault, Made, is_same, make};
use pq_api::BoundedQueue;
use pq_model::{Act, Call, Reply};
use std::alloc::Global;
use std::sync::Wait;

/// Whether the call of this number was answered so, at the place of this number.
pub(crate) fn is_answered(number: u32, made: Call, wanted: Reply) -> Result<(), CheckFault>
    ensures { IfOk result (λ _. (made.place ≡ number) × (made.reply ≡ wanted)) }
{
    if made.place != number {
        return Err(CheckFault::Place { call: number });
    }
    if !is_same(made.reply, wanted) {
        return Err(CheckFault::Reply { call: number });
    }
    Ok(())
}

// Makes all these calls, which are to be answered so.
fn make_all<R: Wait + Sync, Q: BoundedQueue>(
    rt: &R,
    queue: &Q,
    pass: &mut Q::Pass,
    acts: &[Act],
    replies: &[Reply],
) -> Result<(), CheckFault>
    requires own { Q.belongs queue.now pass.old }
    requires new { Q.known pass.old ≡ fresh 1 }
    requires few { length acts.now < call_limit - 1 }
    ensures own { Q.belongs queue.now pass.new }
    ensures alone { IsAlone (Q.known pass.new) }
    ensures made { IfOk result (λ _. (Q.known pass.new).calls ≡ answered_from 0 acts.now replies.now) }
    ensures count { IfOk result (λ _. length replies.now ≡ length acts.now) }
{
    for (number, act) in acts.iter().enumerate() {
        let Some(reply) = replies.get(number) else {
            return Err(CheckFault::Reply {
                call: number as u32,
            });
        };
        let made = make(rt, queue, pass, *act);
        is_answered(number as u32, made, *reply)?;
    }
    if replies.len() != acts.len() {
        return Err(CheckFault::Reply {
            call: acts.len() as u32,
        });
    }
    Ok(())
}

/// Makes these calls on a new queue of one seat and this capacity: each is to be answered so, at the place of its
/// number, and a look is to find as many as were made. The pass has made these calls and no others.
pub fn answers_are<R: Wait + Sync, Q: BoundedQueue>(
    rt: &R,
    alloc: Global,
    gate: Q::Gate,
    capacity: u32,
    acts: &[Act],
    replies: &[Reply],
) -> Result<Made<Q, Q::Pass>, CheckFault>
    requires room { (1 ≤ capacity) × (capacity ≤ Q.CAPACITY) }
    requires few { length acts.now < check_limit }
    ensures own { IfOk result (λ m. Q.belongs m.queue m.pass) }
    ensures limits { IfOk result (λ m. (Q.capacity_of m.queue ≡ capacity) × (Q.seats_of m.queue ≡ 1)) }
    ensures alone { IfOk result (λ m. IsAlone (Q.known m.pass)) }
    ensures made { IfOk result (λ m. (Q.known m.pass).calls ≡ answered_from 0 acts.now replies.now) }
    ensures count { IfOk result (λ _. length replies.now ≡ length acts.now) }
{
    let (queue, mut passes) = Q::open(alloc, capacity, 1, gate)?;
    let mut pass = passes.remove(0);
    make_all(rt, &queue, &mut pass, acts, replies)?;
    if queue.look(&mut pass) as usize != acts.len() {
        return Err(CheckFault::Look);
    }
    Ok(Made { queue, pass })
}
