//! `verify`: the verdict on a choice of a knapsack and the proof that no choice has more.

ghost use Rattle.std.specs.Prelude.{◌≡◌, IfOk};
ghost use Rattle.pq_cli.specs.Commands.{verifying};
ghost use Rattle.pq_cli.specs.Proving.{verdict_text, verdict_status};
ghost use Rattle.pq_cli.specs.Statuses.{IsAnswered};
ghost use Rattle.pq_cli.specs.Work.{Meets};

use crate::answer::Answer;
use crate::labelled::labelled;
use crate::refusal::Refusal;
use crate::status::Status;
use bb_knap::Knapsack;
use bb_proof::{ProofVerdict, read_proof};
use pq_io::NoMemory;
use std::alloc::Global;

/// The verdict on the choice and the proof that the bytes read as, behind their knapsack. Nothing of a search is in it.
pub fn verify(alloc: Global, bytes: &[u8]) -> Result<Answer, Refusal>
    ensures { Meets verifying bytes.now result }
{
    let (items, claimed, proof) = read_proof(alloc, bytes)?;
    let knapsack = Knapsack::new(alloc, items)?;
    let verdict = bb_proof::verify(alloc, &knapsack, &claimed, &proof)?;
    let text = verdict_text(alloc, claimed.stated, verdict)?;
    Ok(Answer::Text {
        status: verdict_status(verdict),
        text,
    })
}

// The status that a verdict ends with.
fn verdict_status(verdict: ProofVerdict) -> Status
    ensures status { result ≡ verdict_status verdict }
    ensures answered { IsAnswered result }
{
    match verdict {
        ProofVerdict::Proved => Status::Ok,
        ProofVerdict::BadWeight(_) | ProofVerdict::BadValue(_) | ProofVerdict::BadToken { .. } =>
            Status::Illegal,
    }
}

// The text of a verdict on a choice with this stated value and a proof.
fn verdict_text(alloc: Global, stated: u32, verdict: ProofVerdict) -> Result<Vec<u8>, NoMemory>
    ensures { IfOk result (λ text. text.items ≡ verdict_text stated verdict) }
{
    match verdict {
        ProofVerdict::Proved => labelled(alloc, b"proved", &[stated]),
        ProofVerdict::BadWeight(_) | ProofVerdict::BadValue(_) | ProofVerdict::BadToken { .. } =>
            Ok(format!(in alloc; "{verdict}\n")?.into_bytes()),
    }
}
