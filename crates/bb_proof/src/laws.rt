//! What holds of all proofs.

ghost use Rattle.std.specs.Prelude.{ℕ, ◌≡◌, ◌↔◌, List, [], ◌∷◌, Bool, true, false, None, Some};
ghost use Rattle.inst_text.specs.declared.knapsack.Item.{Item};
ghost use Rattle.inst_text.specs.Knapsack.{Instance};
ghost use Rattle.bb_problem.specs.Tree.{Tree};
ghost use Rattle.bb_knap.specs.Plans.{IsBest, value_of, cost_of};
ghost use Rattle.bb_knap.specs.Branching.{tree_of};
ghost use Rattle.bb_proof.specs.declared.verdict.ProofVerdict.{ProofVerdict};
ghost use Rattle.bb_proof.specs.declared.verdict.ProofVerdict.TheVariants as verdicts;
ghost use Rattle.bb_proof.specs.Tokens.{IsAccepted, canonical, first_bad};
ghost use Rattle.bb_proof.specs.Verdicts.{IsBelowAll, IsProofVerdict};

/// Law: tokens are accepted exactly where there is no first place at which they fail.
#[tactic(auto, using(crate::proofs::Accepted::accepted_iff_none))]
pub fn accepted_have_no_bad_token()
    ensures { (tree : Tree) (cost : ℕ) (tokens : List Bool) →
        IsAccepted tree cost tokens ↔ first_bad tree cost tokens ≡ None }
{}

/// Law: where a proof of a cost is accepted, no feasible choice costs less.
#[tactic(auto, using(crate::proofs::Sound::accepted_is_below))]
pub fn accepted_proofs_prove()
    ensures { (i : Instance) (cost : ℕ) (tokens : List Bool) → IsAccepted (tree_of i) cost tokens
        → IsBelowAll i cost }
{}

/// Law: where no feasible choice costs less, the canonical proof is accepted.
#[tactic(auto, using(crate::proofs::Complete::canonical_accepted))]
pub fn canonical_is_accepted()
    ensures { (i : Instance) (cost : ℕ) → IsBelowAll i cost → IsAccepted (tree_of i) cost (canonical (tree_of i) cost) }
{}

/// Law: a best choice with its own value and the canonical proof of its cost is found to be proved.
#[tactic(auto, using(crate::proofs::Complete::best_proved))]
pub fn best_plans_are_proved()
    ensures { (i : Instance) (choice : List ℕ) (verdict : ProofVerdict) → IsBest i choice
        → IsProofVerdict i choice (value_of i.items choice) (canonical (tree_of i) (cost_of i choice)) verdict
        → verdict ≡ verdicts.Proved }
{}

/// Law: of two items, (3, 4) and (4, 5), with capacity 5, the canonical proof that no choice costs less than 4 has
/// four tokens, and it fails where one is turned, added or taken away.
#[tactic(auto, using(crate::proofs::Worked::worked))]
pub fn worked_proofs()
    ensures { let items : List Item = record { weight = 3; value = 4 } ∷ record { weight = 4; value = 5 } ∷ [] in
        let i : Instance = record { capacity = 5; items = items } in
        (canonical (tree_of i) 4 ≡ true ∷ true ∷ false ∷ false ∷ [])
        × (first_bad (tree_of i) 4 (true ∷ true ∷ false ∷ false ∷ []) ≡ None)
        × (first_bad (tree_of i) 4 (false ∷ []) ≡ Some 0)
        × (first_bad (tree_of i) 4 (true ∷ true ∷ true ∷ false ∷ []) ≡ Some 2)
        × (first_bad (tree_of i) 4 (true ∷ true ∷ false ∷ false ∷ false ∷ []) ≡ Some 4)
        × (first_bad (tree_of i) 4 (true ∷ true ∷ false ∷ []) ≡ Some 3) }
{}
