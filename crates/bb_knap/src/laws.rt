//! What holds of all choices of an instance.

ghost use Rattle.std.specs.Prelude.{ℕ, ◌+◌, ◌≡◌, ◌≤◌, ◌↔◌, List};
ghost use Rattle.inst_text.specs.Knapsack.{Instance, total_value};
ghost use Rattle.bb_knap.specs.Plans.{IsChoiceOf, IsFeasible, IsBest, IsCheapest, value_of, cost_of};
ghost use Rattle.bb_knap.specs.Branching.{root_bound, IsPlanOf};
ghost use Rattle.bb_knap.specs.declared.verdict.KnapVerdict.{KnapVerdict};
ghost use Rattle.bb_knap.specs.Verdicts.{IsVerdict};

/// Law: what a choice is worth and what it costs make up the sum of all values.
pub fn value_and_cost_are_all()
    ensures { (i : Instance) (choice : List ℕ) → IsChoiceOf i choice
        → value_of i.items choice + cost_of i choice ≡ total_value i.items }
{}

/// Law: the choices of greatest value are those of least cost.
pub fn best_is_cheapest()
    ensures { (i : Instance) (choice : List ℕ) → IsBest i choice ↔ IsCheapest i choice }
{}

/// Law: decisions have a choice of just the items that they take.
#[tactic(auto, using(crate::proofs::Chosen::some_plan))]
pub fn decisions_have_plans()
    ensures { (i : Instance) (decisions : List ℕ) → (choice : List ℕ) × IsPlanOf i decisions choice }
{}

/// Law: no feasible choice is worth more than Dantzig's bound of all items with the whole capacity
/// (G. B. Dantzig, Discrete-variable extremum problems, 1957).
pub fn root_bound_is_bound()
    ensures { (i : Instance) (choice : List ℕ) → IsFeasible i choice → value_of i.items choice ≤ root_bound i }
{}

/// Law: a choice with the value that is stated for it has one verdict and no other.
#[tactic(auto, using(crate::proofs::OneVerdict::verdict_is_one))]
pub fn one_verdict()
    ensures { (i : Instance) (choice : List ℕ) (stated : ℕ) (v w : KnapVerdict) → IsVerdict i choice stated v
        → IsVerdict i choice stated w → v ≡ w }
{}
