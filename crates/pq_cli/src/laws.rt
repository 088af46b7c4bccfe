//! Laws of the commands together.

ghost use Rattle.std.specs.Prelude.{ℕ, ◌≡◌, ◌≤◌, List, [], ◌∷◌};
ghost use Rattle.inst_text.specs.Knapsack.{Instance};
ghost use Rattle.bb_knap.specs.Plans.{IsFeasible, value_of};
ghost use Rattle.pq_model.specs.declared.marks.Act.{Act};
ghost use Rattle.pq_model.specs.declared.marks.Mark.{Mark};
ghost use Rattle.cli_words.specs.declared.command.Branching.{Branching};
ghost use Rattle.cli_words.specs.declared.command.Branching.TheVariants as branchings;
ghost use Rattle.cli_words.specs.declared.command.Kind.{Kind};
ghost use Rattle.cli_words.specs.declared.command.Kind.TheVariants as kinds;
ghost use Rattle.pq_cli.specs.Drilling.{greatest_value};
ghost use Rattle.pq_cli.specs.Problems.{used, IsCheckable};
ghost use Rattle.pq_cli.specs.Proving.{AreVerified};
ghost use Rattle.pq_lanes.specs.Tracing.{IsTraceOf};

use bb_knap::{best_is_cheapest, value_and_cost_are_all};
use bb_proof::{accepted_have_no_bad_token, canonical_is_accepted, proofs_are_read_behind};
use bb_shop::best_starts_are_early;
use inst_text::{
    choices_are_read_behind, knapsack_texts_are_read, shop_texts_are_read, starts_are_read_behind,
};

/// Law: a script of one lane has one history on a queue of this capacity, whichever queue it is. So what `trace`
/// writes for it is a function of its input and its words.
pub fn traces_are_one()
    ensures { (capacity : ℕ) (acts : List Act) (h k : List Mark) →
        IsTraceOf capacity (acts ∷ []) h → IsTraceOf capacity (acts ∷ []) k → h ≡ k }
{}

/// Law: the value that a drill tells of its knapsack is that of a feasible choice, and no feasible choice is worth
/// more.
pub fn greatest_value_is_best()
    ensures attained { (i : Instance) → (choice : List ℕ) × IsFeasible i choice
        × (value_of i.items choice ≡ greatest_value i) }
    ensures greatest { (i : Instance) (choice : List ℕ) → IsFeasible i choice
        → value_of i.items choice ≤ greatest_value i }
{}

/// Law: what `solve` answers to an instance, `check` finds feasible behind it: behind any text of the instance that
/// ends with a line feed, if the two together are not too long for an input.
pub fn solutions_are_checked()
    ensures { (kind : Kind) (branching : Branching) → IsCheckable (used kind branching) }
{
    solved_choices_are_checked();
    solved_schedules_are_checked();
    active_schedules_are_checked();
}

/// Law: what `prove` writes for a knapsack, `verify` answers as proved behind it: behind any text of the knapsack
/// that ends with a line feed, if the two together are not too long for an input.
pub fn proofs_are_verified()
    ensures { AreVerified }
{
    knapsack_texts_are_read();
    proofs_are_read_behind();
    value_and_cost_are_all();
    best_is_cheapest();
    canonical_is_accepted();
    accepted_have_no_bad_token();
}

// Law: the same of a knapsack.
fn solved_choices_are_checked()
    ensures { (branching : Branching) → IsCheckable (used kinds.Knapsack branching) }
{
    knapsack_texts_are_read();
    choices_are_read_behind();
    value_and_cost_are_all();
}

// Law: the same of a shop.
fn solved_schedules_are_checked()
    ensures { IsCheckable (used kinds.Shop branchings.Dispatch) }
{
    shop_texts_are_read();
    starts_are_read_behind();
    best_starts_are_early();
}

// Law: the same of a shop that is branched actively.
fn active_schedules_are_checked()
    ensures { IsCheckable (used kinds.Shop branchings.Active) }
{
    solved_schedules_are_checked();
}
