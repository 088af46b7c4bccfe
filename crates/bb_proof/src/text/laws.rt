//! What holds of all texts of proofs.

ghost use Rattle.std.specs.Prelude.{ℕ, ◌≡◌, ◌≤◌, ◌↔◌, ◌++◌, List, [], ◌∷◌, Bool, length, Ok};
ghost use Rattle.pq_io.specs.Inputs.{longest_input};
ghost use Rattle.inst_text.specs.Limits.{max_stated};
ghost use Rattle.inst_text.specs.declared.plan.Claimed.{Claimed};
ghost use Rattle.inst_text.specs.Knapsack.{Instance, IsInstance, AreNumbers, IsKnapsackText, knapsack_text};
ghost use Rattle.bb_proof.specs.Tokens.{proof_limit};
ghost use Rattle.bb_proof.specs.Texts.{IsProofText, proof_of, proof_text};

/// Law: bytes read as an instance, a choice and a proof exactly where they are a text of the three.
pub fn proof_texts_are_read()
    ensures { (bytes : List ℕ) (i : Instance) (c : Claimed (List ℕ)) (tokens : List Bool) →
        (proof_of bytes ≡ Ok (i, (c, tokens))) ↔ IsProofText bytes i c tokens }
{}

/// Law: the text of an instance, and behind it the text of a choice of its items and a proof, read as the three.
pub fn written_proofs_are_read()
    ensures { (i : Instance) (c : Claimed (List ℕ)) (tokens : List Bool) →
        IsInstance i → c.stated ≤ max_stated → AreNumbers 0 (length i.items) c.plan →
        1 ≤ length tokens → length tokens ≤ proof_limit →
        proof_of (knapsack_text i ++ proof_text c tokens) ≡ Ok (i, (c, tokens)) }
{}

/// Law: behind any text of an instance that ends with a line feed, the text of a choice of its items and a proof
/// reads as these, with the instance before them.
pub fn proofs_are_read_behind()
    ensures { (bytes : List ℕ) (i : Instance) (c : Claimed (List ℕ)) (tokens : List Bool) →
        IsKnapsackText (bytes ++ 10 ∷ []) i → c.stated ≤ max_stated → AreNumbers 0 (length i.items) c.plan →
        1 ≤ length tokens → length tokens ≤ proof_limit →
        length (bytes ++ 10 ∷ proof_text c tokens) ≤ longest_input →
        proof_of (bytes ++ 10 ∷ proof_text c tokens) ≡ Ok (i, (c, tokens)) }
{}
