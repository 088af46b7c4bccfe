//! `solve`: a plan that no feasible plan betters.

ghost use Rattle.std.specs.Prelude.{◌≡◌, ℕ, List, Ok};
ghost use Rattle.bb_pool.specs.Limits.{max_nodes};
ghost use Rattle.cli_words.specs.declared.limits.Limits.{Limits};
ghost use Rattle.cli_words.specs.declared.queues.Which.TheVariants.{Plain};
ghost use Rattle.cli_words.specs.Limits.{AreLimits, AreWithin};
ghost use Rattle.pq_cli.specs.Commands.{solving};
ghost use Rattle.pq_cli.specs.Work.{Meets, IsPlanned};

use crate::answer::Answer;
use crate::planning::{best_plan_alone, best_plan_on};
use crate::problem::UsedProblem;
use crate::refusal::Refusal;
use crate::status::Status;
use cli_words::Limits;
use pq_api::BoundedQueue;
use std::alloc::Global;
use std::sync::Wait;
use std::thread::Threads;

/// The text of a best plan of the instance that the bytes read as, found by a search over a plain queue.
pub fn solve<P: UsedProblem>(alloc: Global, bytes: &[u8], limits: Limits) -> Result<Answer, Refusal>
    requires { AreLimits Plain limits }
    ensures { Meets (solving P.meaning P.texts limits) bytes.now result }
{
    let problem = P::read(alloc, bytes)?;
    let plan = best_plan_alone(alloc, &problem, limits)?;
    solved(alloc, &problem, &plan)
}

/// The text of a best plan of the instance that the bytes read as, found by a search over a queue of this kind.
pub fn solve_on<Rt: Threads + Wait + Sync, Q: BoundedQueue, P: UsedProblem>(
    rt: &Rt,
    alloc: Global,
    bytes: &[u8],
    limits: Limits,
    gate: Q::Gate,
) -> Result<Answer, Refusal>
where
    Q::Gate: Copy,
    requires { AreWithin Q.SEATS max_nodes Q.CAPACITY limits }
    ensures { Meets (solving P.meaning P.texts limits) bytes.now result }
{
    let problem = P::read(alloc, bytes)?;
    let plan = best_plan_on::<Rt, Q, P>(rt, alloc, &problem, limits, gate)?;
    solved(alloc, &problem, &plan)
}

// The text of a best plan.
fn solved<P: UsedProblem>(alloc: Global, problem: &P, plan: &P::Plan) -> Result<Answer, Refusal>
    requires { (P.meaning problem.now).is_feasible plan.now }
    ensures { (limits : Limits) (bytes : List ℕ) → P.texts.instance_of bytes ≡ Ok problem.now
        → IsPlanned (P.meaning problem.now) limits (Ok plan.now)
        → Meets (solving P.meaning P.texts limits) bytes result }
{
    let text = problem.plan_text(alloc, plan)?;
    Ok(Answer::Text {
        status: Status::Ok,
        text,
    })
}
