//! What is proved of the definitions.
ghost use Rattle.std.specs.Prelude.{ℕ, List, ◌≡◌, ◌≢◌, ◌≤◌, [], ◌∷◌, Contains};
ghost use Rattle.inst_text.specs.Shop.{JobShop, IsJobShop};
ghost use Rattle.inst_text.specs.Limits.{max_total};
ghost use Rattle.bb_problem.specs.Tree.{below};
ghost use Rattle.bb_problem.specs.Meaning.{IsLawful};
ghost use Rattle.bb_shop.specs.Dispatching.{IsOrder};
ghost use Rattle.bb_shop.specs.Worked.{ft06};
ghost use Rattle.bb_onemach.specs.Branching.{active_children, Reaches, meaning_of};
ghost use Rattle.bb_onemach.specs.Bounds.{bound_of, root_bound};
ghost use Rattle.bb_onemach.specs.Worked.{three_in_turn};

/// Law: what a node reaches, one of its children reaches.
#[tactic(auto, using(crate::specs::TreeLawsHold::Passing::passed_on))]
pub fn a_branch_loses_nothing()
    ensures { (s : JobShop) (name : List ℕ) (v : ℕ) → IsJobShop s → Reaches s name v → active_children s name ≢ [] →
        (k : ℕ) × Contains (active_children s name) k × Reaches s (below name k) v }
{}

/// Law: no node's bound exceeds the limit of all times.
#[tactic(auto, using(crate::specs::TreeLawsHold::Bounded::bound_within))]
pub fn bounds_are_within()
    ensures { (s : JobShop) (name : List ℕ) → IsJobShop s → IsOrder s name → bound_of s name ≤ max_total }
{}

/// Law: the tree of active schedules meets all laws of a problem.
#[tactic(auto, using(crate::specs::TreeLawsHold::Lawful::lawful))]
pub fn active_schedules_are_lawful()
    ensures { (s : JobShop) → IsJobShop s → IsLawful (meaning_of s) }
{}

/// Law: the definitions give what is known of two worked shops.
#[tactic(auto, using(crate::proofs::WorkedShops::worked_shops))]
pub fn worked_shops()
    ensures in_turn { root_bound three_in_turn ≡ 20 }
    ensures ft06 { root_bound ft06 ≡ 52 }
    ensures children { active_children three_in_turn [] ≡ 2 ∷ [] }
{}
