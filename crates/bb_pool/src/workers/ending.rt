//! The workers joined into one, which goes on alone until nothing is left below its best cost.

ghost use Rattle.std.specs.Prelude.{◌≡◌, ℕ, ◌+◌, ◌≤◌, [], length, IfOk, IfErr};
ghost use Rattle.pq_model.specs.Passes.{IsApart};
ghost use Rattle.pq_api.specs.Answers.{EachAt};
ghost use Rattle.bb_pool.specs.Limits.{idle_calls};
ghost use Rattle.bb_pool.specs.Working.{lesser_found};
ghost use Rattle.bb_pool.specs.Together.{doing, IsOneOf, IsTogether};
ghost use Rattle.bb_pool.specs.Runs.{HasEnded, IsJoinedOf};
ghost use Rattle.bb_pool.specs.SearchOutcomes.{IsSearchOutcome, IsSearchStop, IsFirstStop, HasFoundBest, IsFoundByAll};

use super::shared::{Shared, Worker};
use super::turn::{Turn, take_turn};
use crate::found::Found;
use crate::outcome::{Outcome, of_best, of_stop};
use bb_problem::Problem;
use bb_shared::Stop;
use pq_api::{BoundedQueue, Gate};
use std::alloc::Global;
use std::sync::Wait;

/// Joins all workers into the first.
pub(crate) fn join_all<Q: BoundedQueue, P: Problem>(
    problem: &P,
    shared: &Shared<Q, P::Node>,
    workers: Vec<Worker<Q::Pass, P::Node, P::Plan>>,
) -> Worker<Q::Pass, P::Node, P::Plan>
    requires some { 1 ≤ length workers.items }
    requires ended { EachAt (λ k w.
        HasEnded Q.belongs Q.known Q.seats_of Q.capacity_of (P.meaning problem.now) shared.now (k + 1) w)
        workers.items }
    ensures own { IsOneOf Q.belongs shared.now result }
    ensures together { IsTogether (P.meaning problem.now) shared.now.nodes (Q.seats_of shared.now.queue)
        (Q.capacity_of shared.now.queue) (idle_calls + 1) 1 (length workers.items) (doing Q.known result) }
{
    let mut all = workers;
    let mut first = all.remove(0);
    for other in all {
        join(shared, &mut first, other);
    }
    first
}

// Joins the other worker into the first: its pass, its seats, and its plan where that is cheaper.
fn join<Q: BoundedQueue, N: Send + Drop, L: Send + Drop>(
    shared: &Shared<Q, N>,
    into: &mut Worker<Q::Pass, N, L>,
    other: Worker<Q::Pass, N, L>,
)
    requires own { IsOneOf Q.belongs shared.now into.old × IsOneOf Q.belongs shared.now other }
    requires apart { IsApart (Q.known into.old.pass) (Q.known other.pass) }
    ensures own { IsOneOf Q.belongs shared.now into.new }
    ensures joined { IsJoinedOf shared.now.nodes (Q.seats_of shared.now.queue) (Q.capacity_of shared.now.queue)
        (doing Q.known into.old) (doing Q.known other) (doing Q.known into.new) }
{
    let Worker {
        pass,
        seat,
        control,
        keys: _,
        found,
        made: _,
    } = other;
    shared.queue.join(&mut into.pass, pass);
    shared.store.join(&mut into.seat, seat);
    shared.control.join(&mut into.control, control);
    into.found = cheaper(into.found.take(), found);
}

// The cheaper of two plans, the first where they cost the same.
fn cheaper<L: Drop>(first: Option<Found<L>>, second: Option<Found<L>>) -> Option<Found<L>>
    ensures { result ≡ lesser_found first second }
{
    match (first, second) {
        (None, second) => second,
        (Some(first), None) => Some(first),
        (Some(first), Some(second)) => {
            if second.cost < first.cost {
                return Some(second);
            }
            Some(first)
        }
    }
}

/// The outcome of the workers that were joined into one: the first stop, or the best plan once that one has gone on
/// alone.
pub(crate) fn finish<R: Wait + Sync, Q: BoundedQueue, P: Problem, G: Gate>(
    rt: &R,
    alloc: Global,
    problem: &P,
    shared: &Shared<Q, P::Node>,
    gate: &G,
    worker: Worker<Q::Pass, P::Node, P::Plan>,
) -> Outcome<P::Plan>
    requires valid { P.is_problem problem.now }
    requires own { IsOneOf Q.belongs shared.now worker }
    requires together { IsTogether (P.meaning problem.now) shared.now.nodes (Q.seats_of shared.now.queue)
        (Q.capacity_of shared.now.queue) (idle_calls + 1) 1 (Q.seats_of shared.now.queue) (doing Q.known worker) }
    ensures outcome { IsSearchOutcome (P.meaning problem.now) shared.now.nodes (Q.capacity_of shared.now.queue)
        (Q.seats_of shared.now.queue) result }
    ensures found { IsFoundByAll (P.meaning problem.now) (Q.seats_of shared.now.queue)
        (Q.capacity_of shared.now.queue) result }
    ensures first { IsFirstStop worker.control.kept shared.now.nodes result }
{
    let mut worker = worker;
    if let Some(stop) = shared.control.stopped(&mut worker.control) {
        return of_stop(stop, shared.nodes);
    }
    match go_alone(rt, alloc, problem, shared, gate, &mut worker) {
        Ok(()) => of_best(worker.found),
        Err(stop) => of_stop(stop, shared.nodes),
    }
}

// Takes turns until no entry is left that is below the best cost, or a stop.
fn go_alone<R: Wait + Sync, Q: BoundedQueue, P: Problem, G: Gate>(
    rt: &R,
    alloc: Global,
    problem: &P,
    shared: &Shared<Q, P::Node>,
    gate: &G,
    worker: &mut Worker<Q::Pass, P::Node, P::Plan>,
) -> Result<(), Stop>
    requires valid { P.is_problem problem.now }
    requires own { IsOneOf Q.belongs shared.now worker.old }
    requires none { worker.old.control.kept.stops ≡ [] }
    requires together { IsTogether (P.meaning problem.now) shared.now.nodes (Q.seats_of shared.now.queue)
        (Q.capacity_of shared.now.queue) (idle_calls + 1) 1 (Q.seats_of shared.now.queue) (doing Q.known worker.old) }
    ensures solved { IfOk result (λ _. HasFoundBest (P.meaning problem.now) (Q.seats_of shared.now.queue)
        (Q.capacity_of shared.now.queue) (doing Q.known worker.new)) }
    ensures stopped { IfErr result (IsSearchStop (P.meaning problem.now) shared.now.nodes
        (Q.capacity_of shared.now.queue) (Q.seats_of shared.now.queue)) }
{
    for _ in rt.forever() {
        match take_turn(rt, alloc, problem, shared, gate, worker)? {
            Turn::Worked => {}
            Turn::Idle => return Ok(()),
        }
    }
    unreachable!()
}
