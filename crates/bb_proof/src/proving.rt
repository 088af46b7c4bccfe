//! Making proofs.

ghost use Rattle.std.specs.Prelude.{ℕ, ◌≡◌, ◌<◌, ◌≤◌, not, nat_le, List, ◌∷◌, length, IfOk, MatchOption};
ghost use Rattle.bb_knap.specs.Branching.{tree_of};
ghost use Rattle.bb_proof.specs.Tokens.{proof_limit, canonical, behind};
ghost use Rattle.bb_proof.specs.Verdicts.{IsBelowAll, IsMade, IsGoodProof};

use crate::made::Made;
use crate::proof::{PROOF_LIMIT, Proof};
use crate::walking::follow;
use bb_knap::{KnapWalk, Knapsack};
use pq_io::NoMemory;
use std::alloc::Global;

// Takes the next node's token, which closes it exactly where its bound is at least the cost.
fn next_token(walk: &mut KnapWalk<'_>, cost: u32) -> Result<bool, NoMemory>
    ensures { IfOk result (λ token. (name : List ℕ) (rest : List (List ℕ)) → walk.old.pending ≡ name ∷ rest →
        (token ≡ not (nat_le cost ((tree_of walk.old.instance).bound name)))
        × (walk.new ≡ record walk.old { pending = behind (tree_of walk.old.instance) name token rest })) }
{
    let token = walk.bound() < cost;
    follow(walk, token)?;
    Ok(token)
}

// The tokens of the canonical proof, if there are not too many.
fn tokens(alloc: Global, problem: &Knapsack, cost: u32) -> Result<Option<Vec<bool>>, NoMemory>
    ensures { IfOk result (λ made. MatchOption made
        (proof_limit < length (canonical (tree_of problem.now) cost))
        (λ tokens. (tokens.items ≡ canonical (tree_of problem.now) cost) × (length tokens.items ≤ proof_limit))) }
{
    let mut walk = KnapWalk::new(alloc, problem)?;
    let mut tokens = Vec::new(alloc);
    for _ in 0..PROOF_LIMIT {
        if walk.is_over() {
            return Ok(Some(tokens));
        }
        tokens.push(next_token(&mut walk, cost)?)?;
    }
    if walk.is_over() {
        return Ok(Some(tokens));
    }
    Ok(None)
}

/// The canonical proof that no feasible choice costs less than this, as none does: each node is closed exactly where
/// its bound is at least the cost.
///
/// A walk takes O(log n) for each token, and memory for the tokens and one path.
pub fn prove(alloc: Global, problem: &Knapsack, cost: u32) -> Made
    requires { IsBelowAll problem.now cost }
    // The canonical proof, or that it has more than 2,097,152 tokens.
    ensures exact { IsMade problem.now cost result }
    // A checker that looks at each token finds nothing to blame.
    ensures good { IsGoodProof problem.now cost result }
{
    match tokens(alloc, problem, cost) {
        Ok(Some(tokens)) => Made::Proof(Proof { tokens }),
        Ok(None) => Made::TooLong,
        Err(NoMemory) => Made::NoMemory,
    }
}
