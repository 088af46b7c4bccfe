//! The job shop in use.

ghost use Rattle.std.specs.Prelude.{◌≡◌, IfOk};
ghost use Rattle.bb_shop.specs.Plans.{AreShaped};
ghost use Rattle.pq_cli.specs.Answers.{status_in, text_in, IsWritable};
ghost use Rattle.pq_cli.specs.Statuses.{IsAnswered};
ghost use Rattle.pq_cli.specs.Problems.ShopTexts.{texts, IsJudged, verdict_text, verdict_status};

use crate::answer::Answer;
use crate::labelled::labelled;
use crate::problem::UsedProblem;
use crate::status::Status;
use bb_shop::{Shop, ShopVerdict};
use inst_text::{Claimed, Starts, read_plan_shop, read_shop, write_starts};
use pq_io::{NoMemory, ReadRefusal};
use std::alloc::Global;

impl UsedProblem for Shop {
    ghost texts = { texts };

    ghost suits = { AreShaped };

    fn read(alloc: Global, bytes: &[u8]) -> Result<Shop, ReadRefusal> {
        Ok(Shop::new(alloc, read_shop(alloc, bytes)?)?)
    }

    fn read_with_plan(alloc: Global, bytes: &[u8]) -> Result<(Shop, Claimed<Starts>), ReadRefusal> {
        let (jobs, claimed) = read_plan_shop(alloc, bytes)?;
        Ok((Shop::new(alloc, jobs)?, claimed))
    }

    fn plan_text(&self, alloc: Global, starts: &Starts) -> Result<Vec<u8>, NoMemory> {
        write_starts(alloc, self.makespan_of(starts), starts)
    }

    fn root_bound(&self) -> u32 {
        self.root_bound()
    }

    fn judge(&self, alloc: Global, claimed: &Claimed<Starts>) -> Result<Answer, NoMemory> {
        judged(alloc, self, claimed)
    }
}

/// The verdict on start times and the makespan that is stated for them.
pub fn judged(alloc: Global, shop: &Shop, claimed: &Claimed<Starts>) -> Result<Answer, NoMemory>
    requires { AreShaped shop.now claimed.now.plan }
    ensures judged { IfOk result (λ a. IsJudged shop.now claimed.now (status_in a) (text_in a)) }
    ensures answered { IfOk result (λ a. IsAnswered (status_in a) × IsWritable a) }
{
    let verdict = shop.judge(&claimed.plan, claimed.stated);
    Ok(Answer::Text {
        status: verdict_status(verdict),
        text: verdict_text(alloc, claimed.stated, verdict)?,
    })
}

// The status that a verdict ends with.
fn verdict_status(verdict: ShopVerdict) -> Status
    ensures status { result ≡ verdict_status verdict }
    ensures answered { IsAnswered result }
{
    match verdict {
        ShopVerdict::Feasible => Status::Ok,
        ShopVerdict::BadOrder { .. }
        | ShopVerdict::BadMachine { .. }
        | ShopVerdict::BadMakespan(_) => Status::Illegal,
    }
}

// The text of a verdict on start times with this stated makespan.
fn verdict_text(alloc: Global, stated: u32, verdict: ShopVerdict) -> Result<Vec<u8>, NoMemory>
    ensures { IfOk result (λ text. text.items ≡ verdict_text stated verdict) }
{
    match verdict {
        ShopVerdict::Feasible => labelled(alloc, b"feasible", &[stated]),
        ShopVerdict::BadOrder { job, step } => labelled(alloc, b"bad order", &[job, step]),
        ShopVerdict::BadMachine {
            job,
            step,
            other,
            other_step,
        } => labelled(alloc, b"bad machine", &[job, step, other, other_step]),
        ShopVerdict::BadMakespan(makespan) => labelled(alloc, b"bad makespan", &[makespan]),
    }
}
