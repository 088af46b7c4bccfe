//! What the program does with a problem, beside searching it.

ghost use Rattle.std.specs.Prelude.{ℕ, List, ◌≡◌, IfOk};
ghost use Rattle.pq_io.specs.Reading.{Gives};
ghost use Rattle.pq_cli.specs.Answers.{status_in, text_in, IsWritable};
ghost use Rattle.pq_cli.specs.Statuses.{IsAnswered};
ghost use Rattle.pq_cli.specs.Using.{Texts};

use crate::answer::Answer;
use bb_problem::Problem;
use inst_text::Claimed;
use pq_io::{NoMemory, ReadRefusal};
use std::alloc::Global;

/// A problem that the program uses: its instances and plans have texts, and plans are judged.
///
/// Each command that names a problem is written once, over this trait.
pub trait UsedProblem: Problem + Drop {
    /// What its texts mean.
    ghost texts: { Texts Self Self.Plan };

    /// The plan speaks of what the instance has, be it feasible or not.
    ghost suits: { Self → Self.Plan → Type 0 };

    /// The instance that the bytes read as.
    fn read(alloc: Global, bytes: &[u8]) -> Result<Self, ReadRefusal>
        ensures { Gives (λ p. p) result (texts.instance_of bytes.now) };

    /// The instance, and the plan behind it with the number that is stated for it.
    fn read_with_plan(
        alloc: Global,
        bytes: &[u8],
    ) -> Result<(Self, Claimed<Self::Plan>), ReadRefusal>
        ensures exact { Gives (λ r. r) result (texts.plan_of bytes.now) }
        ensures suiting { IfOk result (λ r. suits r.0 r.1.plan) };

    /// The text of a feasible plan.
    fn plan_text(&self, alloc: Global, plan: &Self::Plan) -> Result<Vec<u8>, NoMemory>
        requires { (Self.meaning self.now).is_feasible plan.now }
        ensures { IfOk result (λ text. text.items ≡ texts.plan_text self.now plan.now) };

    /// What the bound of the root allows.
    fn root_bound(&self) -> u32
        ensures { result ≡ texts.root_bound self.now };

    /// The verdict on a plan and the number that is stated for it.
    fn judge(&self, alloc: Global, claimed: &Claimed<Self::Plan>) -> Result<Answer, NoMemory>
        requires { suits self.now claimed.now.plan }
        ensures judged { IfOk result (λ a. texts.IsVerdict self.now claimed.now (status_in a) (text_in a)) }
        ensures answered { IfOk result (λ a. IsAnswered (status_in a) × IsWritable a) };
}
