//! What is proved of the definitions.
ghost use Rattle.std.specs.Prelude.{ℕ, List, [], ◌∷◌, ◌≡◌, ◌≤◌};
ghost use Rattle.inst_text.specs.Limits.{max_total};
ghost use Rattle.inst_text.specs.Shop.{JobShop, IsJobShop, AreStarts};
ghost use Rattle.bb_shop.specs.declared.verdict.ShopVerdict.{ShopVerdict};
ghost use Rattle.bb_shop.specs.Plans.{IsOperation, AreShaped, end_at, makespan, IsFeasible, IsCheapest};
ghost use Rattle.bb_shop.specs.Verdicts.{IsVerdict};
ghost use Rattle.bb_shop.specs.Bounds.{bound_of, root_bound, finishes, machine_bounds, greatest};
ghost use Rattle.bb_shop.specs.Branching.{Reaches, children_of};
ghost use Rattle.bb_shop.specs.Dispatching.{IsOrder, state_of};
ghost use Rattle.bb_shop.specs.Worked.{ft06, three_by_three};

/// Law: each feasible schedule is reached by a dispatch order that ends no later.
pub fn schedules_are_reached()
    ensures { (s : JobShop) (plan : List (List ℕ)) → IsJobShop s → IsFeasible s plan → Reaches s [] (makespan s plan) }
{}

/// Law: the bound of a node is at most what each whole order costs that goes on from it.
#[tactic(auto, using(crate::specs::TreeLawsHold::Bounded::bounded))]
pub fn bounds_are_below()
    ensures { (s : JobShop) (name : List ℕ) (v : ℕ) → IsJobShop s → Reaches s name v → bound_of s name ≤ v }
{}

/// Law: no node's bound exceeds what the times of a job shop can add up to.
#[tactic(auto, using(crate::specs::TreeLawsHold::Bounded::bound_within))]
pub fn bounds_are_within()
    ensures { (s : JobShop) (name : List ℕ) → IsJobShop s → IsOrder s name → bound_of s name ≤ max_total }
{}

/// Law: the makespan is the greatest end: no operation ends after it, and some operation ends at it.
#[tactic(auto, using(crate::specs::TreeLawsHold::Ended::end_within_makespan, crate::proofs::Ends::makespan_is_end))]
pub fn makespan_is_greatest_end()
    ensures at_least { (s : JobShop) (starts : List (List ℕ)) (j k : ℕ) → IsJobShop s → AreShaped s starts
        → IsOperation s j k → end_at s starts j k ≤ makespan s starts }
    ensures attained { (s : JobShop) (starts : List (List ℕ)) → IsJobShop s → AreShaped s starts
        → (j : ℕ) × (k : ℕ) × IsOperation s j k × (end_at s starts j k ≡ makespan s starts) }
{}

/// Law: start times with the makespan that is stated for them have one verdict and no other.
#[tactic(auto, using(crate::proofs::OneVerdict::verdict_is_one))]
pub fn one_verdict()
    ensures { (s : JobShop) (starts : List (List ℕ)) (stated : ℕ) (v w : ShopVerdict) → IsVerdict s starts stated v
        → IsVerdict s starts stated w → v ≡ w }
{}

/// Law: no feasible schedule ends before the bound of the root.
#[tactic(auto, using(crate::proofs::Ends::root_bound_below))]
pub fn root_bound_is_bound()
    ensures { (s : JobShop) (starts : List (List ℕ)) →
        IsJobShop s → IsFeasible s starts → root_bound s ≤ makespan s starts }
{}

/// Law: each start of a best schedule is within the limit of start times.
#[tactic(auto, using(crate::proofs::Ends::best_starts_early))]
pub fn best_starts_are_early()
    ensures { (s : JobShop) (starts : List (List ℕ)) → IsJobShop s → IsCheapest s starts → AreStarts starts }
{}

/// Law: the definitions give what is known of two worked shops. At the root of ft06 the longest job takes 47, and
/// these are the machines' bounds. In the shop of three by three, this order ends at 11.
#[tactic(auto, using(crate::proofs::WorkedShops::worked_shops))]
pub fn worked_shops()
    ensures longest { greatest (finishes ft06 (state_of ft06 [])) ≡ 47 }
    ensures machine_bounds { machine_bounds ft06 (state_of ft06 []) ≡ 42 ∷ 33 ∷ 26 ∷ 25 ∷ 52 ∷ 49 ∷ [] }
    ensures bound { root_bound ft06 ≡ 52 }
    ensures children { children_of three_by_three (1 ∷ 1 ∷ 1 ∷ 0 ∷ []) ≡ 0 ∷ 2 ∷ [] }
    ensures starts { (state_of three_by_three (1 ∷ 2 ∷ 0 ∷ 1 ∷ 0 ∷ 1 ∷ 2 ∷ 0 ∷ 2 ∷ [])).starts ≡
        (2 ∷ 5 ∷ 7 ∷ []) ∷ (0 ∷ 2 ∷ 7 ∷ []) ∷ (0 ∷ 4 ∷ 7 ∷ []) ∷ [] }
    ensures makespan { makespan three_by_three ((2 ∷ 5 ∷ 7 ∷ []) ∷ (0 ∷ 2 ∷ 7 ∷ []) ∷ (0 ∷ 4 ∷ 7 ∷ []) ∷ []) ≡ 11 }
{}
