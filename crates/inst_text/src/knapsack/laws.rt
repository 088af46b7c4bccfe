//! What the texts of knapsacks are.

ghost use Rattle.std.specs.Prelude.{◌≡◌, ◌↔◌, List, ℕ, Ok};
ghost use Rattle.inst_text.specs.Knapsack.{Instance, IsInstance, IsKnapsackText, knapsack_of, knapsack_text};

/// Law: bytes read as an instance exactly where they are a text of it.
pub fn knapsack_texts_are_read()
    ensures { (bytes : List ℕ) (i : Instance) → (knapsack_of bytes ≡ Ok i) ↔ IsKnapsackText bytes i }
{}

/// Law: the text of an instance reads as this instance.
pub fn written_knapsacks_are_read()
    ensures { (i : Instance) → IsInstance i → knapsack_of (knapsack_text i) ≡ Ok i }
{}
