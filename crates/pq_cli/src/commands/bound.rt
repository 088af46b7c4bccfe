//! `bound`: what the bound of the root allows.

ghost use Rattle.std.specs.Prelude.{◌≡◌, IfOk};
ghost use Rattle.pq_cli.specs.Commands.{bounding};
ghost use Rattle.pq_cli.specs.Texts.{bound_text};
ghost use Rattle.pq_cli.specs.Work.{Meets};

use crate::answer::Answer;
use crate::labelled::labelled;
use crate::problem::UsedProblem;
use crate::refusal::Refusal;
use crate::status::Status;
use pq_io::NoMemory;
use std::alloc::Global;

/// The text of the root's bound, for the instance that the bytes read as.
pub fn bound<P: UsedProblem>(alloc: Global, bytes: &[u8]) -> Result<Answer, Refusal>
    ensures { Meets (bounding P.texts) bytes.now result }
{
    let problem = P::read(alloc, bytes)?;
    let text = bound_text(alloc, problem.root_bound())?;
    Ok(Answer::Text {
        status: Status::Ok,
        text,
    })
}

// The line of a bound.
fn bound_text(alloc: Global, bound: u32) -> Result<Vec<u8>, NoMemory>
    ensures { IfOk result (λ text. text.items ≡ bound_text bound) }
{
    labelled(alloc, b"bound", &[bound])
}
