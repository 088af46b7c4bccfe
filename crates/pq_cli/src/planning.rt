//! Best plans, found by a search of one worker or of several.

ghost use Rattle.std.specs.Prelude.{◌≡◌, ◌≤◌};
ghost use Rattle.bb_pool.specs.Limits.{max_nodes};
ghost use Rattle.bb_pool.specs.Outcomes.{IsOutcome};
ghost use Rattle.bb_pool.specs.SearchOutcomes.{IsSearchOutcome};
ghost use Rattle.cli_words.specs.declared.queues.Which.TheVariants.{Plain};
ghost use Rattle.cli_words.specs.Limits.{AreLimits, AreWithin};
ghost use Rattle.pq_cli.specs.Refusals.{plan_of, is_stopped};
ghost use Rattle.pq_cli.specs.Work.{IsPlanned};

use crate::plain::plain_pass;
use crate::refusal::Refusal;
use bb_pool::{Outcome, search, search_plain};
use bb_problem::Problem;
use cli_words::Limits;
use pq_api::BoundedQueue;
use std::alloc::Global;
use std::sync::Wait;
use std::thread::Threads;

/// A plan that no feasible plan betters, found by a search of one worker over a plain queue. It waits for nobody.
#[tactic(auto, using(crate::proofs::Planned::planned))]
pub fn best_plan_alone<P: Problem>(
    alloc: Global,
    problem: &P,
    limits: Limits,
) -> Result<P::Plan, Refusal>
    requires { AreLimits Plain limits }
    ensures { IsPlanned (P.meaning problem.now) limits result }
{
    let pass = plain_pass(alloc, limits.capacity)?;
    plan_of(search_plain(alloc, problem, pass, limits.nodes))
}

/// A plan that no feasible plan betters, found by a search of so many workers over a queue of this kind.
///
/// Where several were stopped by a limit, one of them might not have been: of children that one makes, several may
/// make more before they come to a plan. So that search is dropped, and one worker searches once more, over a fresh
/// queue of the same capacity and under the same node limit. What it comes to is the answer.
#[tactic(auto, using(crate::proofs::Planned::planned, crate::proofs::Planned::planned_by_all))]
pub fn best_plan_on<Rt: Threads + Wait + Sync, Q: BoundedQueue, P: Problem>(
    rt: &Rt,
    alloc: Global,
    problem: &P,
    limits: Limits,
    gate: Q::Gate,
) -> Result<P::Plan, Refusal>
where
    Q::Gate: Copy,
    requires { AreWithin Q.SEATS max_nodes Q.CAPACITY limits }
    ensures { IsPlanned (P.meaning problem.now) limits result }
{
    let outcome = search_on::<Rt, Q, P>(rt, alloc, problem, limits, gate);
    if limits.workers == 1 || !is_stopped(&outcome) {
        return plan_of(outcome);
    }
    let alone = Limits {
        workers: 1,
        ..limits
    };
    plan_of(search_on::<Rt, Q, P>(rt, alloc, problem, alone, gate))
}

// How a search of so many workers over a fresh queue of this kind ends.
fn search_on<Rt: Threads + Wait + Sync, Q: BoundedQueue, P: Problem>(
    rt: &Rt,
    alloc: Global,
    problem: &P,
    limits: Limits,
    gate: Q::Gate,
) -> Outcome<P::Plan>
where
    Q::Gate: Copy,
    requires { AreWithin Q.SEATS max_nodes Q.CAPACITY limits }
    ensures outcome { IsSearchOutcome (P.meaning problem.now) limits.nodes limits.capacity limits.workers result }
    ensures one { limits.workers ≡ 1 → IsOutcome (P.meaning problem.now) limits.nodes limits.capacity result }
{
    match Q::open(alloc, limits.capacity, limits.workers, gate) {
        Ok((queue, passes)) => {
            search::<Rt, Q, P, Q::Gate>(rt, alloc, problem, queue, passes, limits.nodes, &gate)
        }
        Err(_) => Outcome::NoMemory,
    }
}

// A limit of the search ended it.
fn is_stopped<P>(outcome: &Outcome<P>) -> bool
    ensures { result ≡ is_stopped outcome.now }
{
    matches!(outcome, Outcome::NodeLimit { .. } | Outcome::Full { .. })
}

// The plan that a search ended with, or why it has none.
fn plan_of<P: Drop>(outcome: Outcome<P>) -> Result<P, Refusal>
    ensures { result ≡ plan_of outcome }
{
    match outcome {
        Outcome::Best { plan, .. } => Ok(plan),
        Outcome::NodeLimit { asked, limit } => Err(Refusal::NodeLimit { asked, limit }),
        Outcome::Full { place } => Err(Refusal::Full { place }),
        Outcome::NoMemory => Err(Refusal::NoMemory),
    }
}
