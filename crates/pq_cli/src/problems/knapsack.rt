//! The knapsack in use.

ghost use Rattle.std.specs.Prelude.{◌≡◌, IfOk};
ghost use Rattle.bb_knap.specs.Plans.{IsChoiceOf};
ghost use Rattle.pq_cli.specs.Statuses.{IsAnswered};
ghost use Rattle.pq_cli.specs.Problems.KnapsackTexts.{texts, verdict_text, verdict_status};

use crate::answer::Answer;
use crate::labelled::labelled;
use crate::problem::UsedProblem;
use crate::status::Status;
use bb_knap::{KnapVerdict, Knapsack};
use inst_text::{Choice, Claimed, read_knapsack, read_plan_knapsack, write_choice};
use pq_io::{NoMemory, ReadRefusal};
use std::alloc::Global;

impl UsedProblem for Knapsack {
    ghost texts = { texts };

    ghost suits = { IsChoiceOf };

    fn read(alloc: Global, bytes: &[u8]) -> Result<Knapsack, ReadRefusal> {
        Ok(Knapsack::new(alloc, read_knapsack(alloc, bytes)?)?)
    }

    fn read_with_plan(
        alloc: Global,
        bytes: &[u8],
    ) -> Result<(Knapsack, Claimed<Choice>), ReadRefusal> {
        let (items, claimed) = read_plan_knapsack(alloc, bytes)?;
        Ok((Knapsack::new(alloc, items)?, claimed))
    }

    fn plan_text(&self, alloc: Global, choice: &Choice) -> Result<Vec<u8>, NoMemory> {
        write_choice(alloc, self.value_of(choice), choice)
    }

    fn root_bound(&self) -> u32 {
        self.root_bound()
    }

    fn judge(&self, alloc: Global, claimed: &Claimed<Choice>) -> Result<Answer, NoMemory> {
        let verdict = self.judge(&claimed.plan, claimed.stated);
        Ok(Answer::Text {
            status: verdict_status(verdict),
            text: verdict_text(alloc, claimed.stated, verdict)?,
        })
    }
}

// The status that a verdict ends with.
fn verdict_status(verdict: KnapVerdict) -> Status
    ensures status { result ≡ verdict_status verdict }
    ensures answered { IsAnswered result }
{
    match verdict {
        KnapVerdict::Feasible => Status::Ok,
        KnapVerdict::BadWeight(_) | KnapVerdict::BadValue(_) => Status::Illegal,
    }
}

// The text of a verdict on a choice with this stated value.
fn verdict_text(alloc: Global, stated: u32, verdict: KnapVerdict) -> Result<Vec<u8>, NoMemory>
    ensures { IfOk result (λ text. text.items ≡ verdict_text stated verdict) }
{
    match verdict {
        KnapVerdict::Feasible => labelled(alloc, b"feasible", &[stated]),
        KnapVerdict::BadWeight(_) | KnapVerdict::BadValue(_) => {
            Ok(format!(in alloc; "{verdict}\n")?.into_bytes())
        }
    }
}
