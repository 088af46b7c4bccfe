//! A worker from its first turn to its last, and all workers on threads.

ghost use Rattle.std.specs.Prelude.{◌≡◌, ℕ, ◌+◌, ◌<◌, ◌≤◌, [], length, IfOk, IfErr};
ghost use Rattle.pq_model.specs.Passes.{Knows};
ghost use Rattle.pq_api.specs.Answers.{EachAt};
ghost use Rattle.bb_pool.specs.Limits.{idle_calls};
ghost use Rattle.bb_pool.specs.Origins.{KeepsOrigins};
ghost use Rattle.bb_pool.specs.Together.{doing, IsOneOf, AtWork, IsCounted, IsTogether};
ghost use Rattle.bb_pool.specs.Runs.{HasRun, HasStopped, IsReady, HasEnded, IsStill};

use super::shared::{Shared, Worker};
use super::turn::{Turn, take_turn};
use crate::limits::IDLE_CALLS;
use bb_problem::Problem;
use bb_shared::{Control, ControlSeat, Stop};
use crossbeam_utils::Backoff;
use pq_api::{BoundedQueue, Gate};
use std::alloc::Global;
use std::sync::Wait;
use std::thread::{Threads, for_each_mut};

/// Runs all workers, each on a thread of its own where one can be made.
pub(crate) fn run_all<R: Threads + Wait + Sync, Q: BoundedQueue, P: Problem, G: Gate>(
    rt: &R,
    alloc: Global,
    problem: &P,
    shared: &Shared<Q, P::Node>,
    gate: &G,
    workers: &mut [Worker<Q::Pass, P::Node, P::Plan>],
)
    requires valid { P.is_problem problem.now }
    requires some { 1 ≤ length workers.old }
    requires ready { EachAt (λ k w.
        IsReady Q.belongs Q.known Q.seats_of Q.capacity_of (P.meaning problem.now) shared.now (k + 1) w) workers.old }
    ensures count { length workers.new ≡ length workers.old }
    ensures ended { EachAt (λ k w.
        HasEnded Q.belongs Q.known Q.seats_of Q.capacity_of (P.meaning problem.now) shared.now (k + 1) w) workers.new }
{
    let threads = workers.len();
    let work = |k: usize, worker: &mut Worker<Q::Pass, P::Node, P::Plan>|
        requires valid { P.is_problem problem.now }
        requires ready { IsReady Q.belongs Q.known Q.seats_of Q.capacity_of (P.meaning problem.now) shared.now (k + 1)
            worker.now }
        ensures ended { HasEnded Q.belongs Q.known Q.seats_of Q.capacity_of (P.meaning problem.entry.now)
            shared.entry.now (k + 1) worker.exit.now }
    { run(rt, alloc, problem, shared, gate, worker) };
    for_each_mut(rt, workers, threads, &work);
}

// Runs a worker until it ends. Where it stops early, it sets the stop.
fn run<R: Wait + Sync, Q: BoundedQueue, P: Problem, G: Gate>(
    rt: &R,
    alloc: Global,
    problem: &P,
    shared: &Shared<Q, P::Node>,
    gate: &G,
    worker: &mut Worker<Q::Pass, P::Node, P::Plan>,
)
    requires valid { P.is_problem problem.now }
    requires own { IsOneOf Q.belongs shared.now worker.old }
    requires none { worker.old.control.kept.stops ≡ [] }
    requires together { (from : ℕ) × (to : ℕ) × IsTogether (P.meaning problem.now) shared.now.nodes
        (Q.seats_of shared.now.queue) (Q.capacity_of shared.now.queue) idle_calls from to (doing Q.known worker.old) }
    ensures own { IsOneOf Q.belongs shared.now worker.new }
    ensures together { (from to : ℕ) → IsTogether (P.meaning problem.now) shared.now.nodes
        (Q.seats_of shared.now.queue) (Q.capacity_of shared.now.queue) idle_calls from to (doing Q.known worker.old)
        → IsTogether (P.meaning problem.now) shared.now.nodes (Q.seats_of shared.now.queue)
        (Q.capacity_of shared.now.queue) (idle_calls + 1) from to (doing Q.known worker.new) }
{
    match go_on(rt, alloc, problem, shared, gate, worker) {
        Ok(()) => {}
        Err(stop) => {
            shared.control.stop(&mut worker.control, stop);
            return;
        }
    }
}

// Takes turns, until none is open and none is left, or a stop is set. Between two turns that found nothing it pauses,
// longer each time, so that it does not take the queue's locks from those that work.
fn go_on<R: Wait + Sync, Q: BoundedQueue, P: Problem, G: Gate>(
    rt: &R,
    alloc: Global,
    problem: &P,
    shared: &Shared<Q, P::Node>,
    gate: &G,
    worker: &mut Worker<Q::Pass, P::Node, P::Plan>,
) -> Result<(), Stop>
    requires valid { P.is_problem problem.now }
    requires own { IsOneOf Q.belongs shared.now worker.old }
    requires knows { Knows (Q.seats_of shared.now.queue) (Q.capacity_of shared.now.queue) (Q.known worker.old.pass) }
    requires counted { IsCounted shared.now.nodes idle_calls (doing Q.known worker.old) }
    requires working { AtWork (P.meaning problem.now) (doing Q.known worker.old) }
    ensures own { IsOneOf Q.belongs shared.now worker.new }
    ensures knows { Knows (Q.seats_of shared.now.queue) (Q.capacity_of shared.now.queue) (Q.known worker.new.pass) }
    ensures ended { IfOk result (λ _. HasRun (P.meaning problem.now) shared.now.nodes (idle_calls + 1)
        (doing Q.known worker.old) (doing Q.known worker.new)) }
    ensures stopped { IfErr result (HasStopped shared.now.nodes (doing Q.known worker.old) (doing Q.known worker.new)) }
    ensures traced { KeepsOrigins (P.meaning problem.now) worker.old.seat.kept worker.new.seat.kept }
{
    let backoff = Backoff::new();
    let mut was_idle = false;
    for _ in rt.forever() {
        match take_turn(rt, alloc, problem, shared, gate, worker)? {
            Turn::Worked => {
                was_idle = false;
                backoff.reset();
            }
            Turn::Idle => {
                let over = is_over(&shared.control, &mut worker.control, &mut was_idle);
                if over || worker.made >= IDLE_CALLS {
                    return Ok(());
                }
                backoff.snooze();
            }
        }
    }
    unreachable!()
}

// Whether a worker that found nothing ends: a stop is set, or no turn is open now, nor was after its turn before.
fn is_over(control: &Control, seat: &mut ControlSeat, was_idle: &mut bool) -> bool
    requires own { seat.old.control ≡ control.now }
    ensures own { seat.new.control ≡ seat.old.control }
    ensures still { IsStill seat.old.kept seat.new.kept }
{
    let idle = control.idle(seat);
    let over = idle && *was_idle;
    *was_idle = idle;
    control.stopped(seat).is_some() || over
}
