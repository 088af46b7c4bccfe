//! A proof: the tokens of a walk.

use std::marker::Model;

/// How many tokens a proof has at most.
pub const PROOF_LIMIT: u32 = 2_097_152;

/// A proof that no feasible choice costs less than a number: for each node of a walk through the tree in preorder
/// true to branch into its children, or false to close it, since its bound is not below that number.
///
/// There are 1 to 2,097,152 tokens. Whether it proves anything, only `verify` says.
#[derive(Debug, Drop)]
pub struct Proof {
    pub tokens: Vec<bool>,
}

impl Model for Proof {
    ghost use Rattle.std.specs.Prelude.{◌≤◌, List, Bool, length};
    ghost use Rattle.bb_proof.specs.Tokens.{proof_limit};

    ghost Value = { List Bool };

    ghost view = { λ p. p.tokens.items };

    ghost invariant = { λ p. (1 ≤ length p.tokens.items) × (length p.tokens.items ≤ proof_limit) };
}
