//! Checking proofs.

ghost use Rattle.std.specs.Prelude.{◌≡◌, ◌≤◌, length, IfOk};
ghost use Rattle.bb_knap.specs.Plans.{IsChoiceOf};
ghost use Rattle.bb_knap.specs.Branching.{tree_of};
ghost use Rattle.bb_proof.specs.Tokens.{proof_limit, first_bad};
ghost use Rattle.bb_proof.specs.Verdicts.{IsProofVerdict, MeansBest};

use crate::proof::Proof;
use crate::verdict::ProofVerdict;
use crate::walking::{follow, is_right};
use bb_knap::{KnapVerdict, KnapWalk, Knapsack};
use bb_problem::Problem;
use inst_text::{Choice, Claimed};
use pq_io::NoMemory;
use std::alloc::Global;

// The first place at which a proof of this cost fails. One walk.
fn first_bad(
    alloc: Global,
    problem: &Knapsack,
    cost: u32,
    tokens: &[bool],
) -> Result<Option<u32>, NoMemory>
    requires { length tokens.now ≤ proof_limit }
    ensures { IfOk result (λ bad. bad ≡ first_bad (tree_of problem.now) cost tokens.now) }
{
    let mut walk = KnapWalk::new(alloc, problem)?;
    for (place, token) in tokens.iter().enumerate() {
        if walk.is_over() || !is_right(&walk, cost, *token) {
            return Ok(Some(place as u32));
        }
        follow(&mut walk, *token)?;
    }
    if walk.is_over() {
        return Ok(None);
    }
    Ok(Some(tokens.len() as u32))
}

/// Checks a choice, the value that is stated for it and a proof that no feasible choice has more, with nothing of a
/// search. It finds the first thing that fails: the weight, else the value, else a token of the proof.
///
/// A walk takes O(log n) for each token, and memory for one path.
pub fn verify(
    alloc: Global,
    problem: &Knapsack,
    claimed: &Claimed<Choice>,
    proof: &Proof,
) -> Result<ProofVerdict, NoMemory>
    requires { IsChoiceOf problem.now claimed.now.plan }
    // Exactly the first thing that fails.
    ensures exact { IfOk result (IsProofVerdict problem.now claimed.now.plan claimed.now.stated proof.now) }
    // What is proved is so: the choice is feasible and has the stated value, and no feasible choice has more.
    ensures best { IfOk result (MeansBest problem.now claimed.now.plan claimed.now.stated) }
{
    match problem.judge(&claimed.plan, claimed.stated) {
        KnapVerdict::BadWeight(weight) => Ok(ProofVerdict::BadWeight(weight)),
        KnapVerdict::BadValue(value) => Ok(ProofVerdict::BadValue(value)),
        KnapVerdict::Feasible => {
            let cost = problem.cost(&claimed.plan);
            match first_bad(alloc, problem, cost, proof.tokens.as_slice())? {
                Some(place) => Ok(ProofVerdict::BadToken { place }),
                None => Ok(ProofVerdict::Proved),
            }
        }
    }
}
