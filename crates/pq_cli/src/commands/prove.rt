//! `prove`: a best choice of a knapsack, and the proof that no choice has more.

ghost use Rattle.std.specs.Prelude.{◌≡◌, ℕ, List, IfOk, Ok};
ghost use Rattle.bb_pool.specs.Limits.{max_nodes};
ghost use Rattle.pq_io.specs.Reading.{Gives};
ghost use Rattle.inst_text.specs.Knapsack.{knapsack_of};
ghost use Rattle.bb_knap.specs.Branching.{meaning_of};
ghost use Rattle.cli_words.specs.declared.limits.Limits.{Limits};
ghost use Rattle.cli_words.specs.declared.queues.Which.TheVariants.{Plain};
ghost use Rattle.cli_words.specs.Limits.{AreLimits, AreWithin};
ghost use Rattle.pq_cli.specs.Commands.{proving};
ghost use Rattle.pq_cli.specs.Refusals.{made_of};
ghost use Rattle.pq_cli.specs.Using.{IsBestPlan};
ghost use Rattle.pq_cli.specs.Work.{Meets, IsPlanned};

use crate::answer::Answer;
use crate::planning::{best_plan_alone, best_plan_on};
use crate::problem::UsedProblem;
use crate::refusal::Refusal;
use crate::status::Status;
use bb_knap::Knapsack;
use bb_problem::Problem;
use bb_proof::{Made, Proof, write_proof};
use cli_words::Limits;
use inst_text::{Choice, Claimed};
use pq_api::BoundedQueue;
use std::alloc::Global;
use std::sync::Wait;
use std::thread::Threads;

/// The text of a best choice of the knapsack that the bytes read as, found by a search over a plain queue, and of the
/// canonical proof that no choice has more.
pub fn prove(alloc: Global, bytes: &[u8], limits: Limits) -> Result<Answer, Refusal>
    requires { AreLimits Plain limits }
    ensures { Meets (proving limits) bytes.now result }
{
    let knapsack = Knapsack::read(alloc, bytes)?;
    let choice = best_plan_alone(alloc, &knapsack, limits)?;
    proved(alloc, &knapsack, choice)
}

/// The same, found by a search over a queue of this kind.
pub fn prove_on<Rt: Threads + Wait + Sync, Q: BoundedQueue>(
    rt: &Rt,
    alloc: Global,
    bytes: &[u8],
    limits: Limits,
    gate: Q::Gate,
) -> Result<Answer, Refusal>
where
    Q::Gate: Copy,
    requires { AreWithin Q.SEATS max_nodes Q.CAPACITY limits }
    ensures { Meets (proving limits) bytes.now result }
{
    let knapsack = Knapsack::read(alloc, bytes)?;
    let choice = best_plan_on::<Rt, Q, Knapsack>(rt, alloc, &knapsack, limits, gate)?;
    proved(alloc, &knapsack, choice)
}

// The text of a best choice, and of the canonical proof that no choice has more.
fn proved(alloc: Global, knapsack: &Knapsack, choice: Choice) -> Result<Answer, Refusal>
    requires { IsBestPlan (meaning_of knapsack.now) choice }
    ensures { (limits : Limits) (bytes : List ℕ) → knapsack_of bytes ≡ Ok knapsack.now
        → IsPlanned (meaning_of knapsack.now) limits (Ok choice)
        → Meets (proving limits) bytes result }
{
    let cost = knapsack.cost(&choice);
    let proof = made_of(bb_proof::prove(alloc, knapsack, cost))?;
    let claimed = Claimed {
        stated: knapsack.value_of(&choice),
        plan: choice,
    };
    let text = write_proof(alloc, &claimed, &proof)?;
    Ok(Answer::Text {
        status: Status::Ok,
        text,
    })
}

// The proof that was made, or why there is none.
fn made_of(made: Made) -> Result<Proof, Refusal>
    ensures { result ≡ made_of made }
{
    match made {
        Made::Proof(proof) => Ok(proof),
        Made::TooLong => Err(Refusal::ProofLimit),
        Made::NoMemory => Err(Refusal::NoMemory),
    }
}
