//! `check`: the verdict on a plan.

ghost use Rattle.pq_cli.specs.Commands.{checking};
ghost use Rattle.pq_cli.specs.Work.{Meets};

use crate::answer::Answer;
use crate::problem::UsedProblem;
use crate::refusal::Refusal;
use std::alloc::Global;

/// The verdict on the plan that the bytes read as, behind its instance.
pub fn check<P: UsedProblem>(alloc: Global, bytes: &[u8]) -> Result<Answer, Refusal>
    ensures { Meets (checking P.texts) bytes.now result }
{
    let (problem, claimed) = P::read_with_plan(alloc, bytes)?;
    Ok(problem.judge(alloc, &claimed)?)
}
