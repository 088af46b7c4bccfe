//! What the texts of plans are.

ghost use Rattle.std.specs.Prelude.{◌≡◌, ◌≤◌, ◌↔◌, ◌++◌, List, [], ◌∷◌, ℕ, length, Ok};
ghost use Rattle.pq_io.specs.Inputs.{longest_input};
ghost use Rattle.inst_text.specs.declared.plan.Claimed.{Claimed};
ghost use Rattle.inst_text.specs.Limits.{max_stated};
ghost use Rattle.inst_text.specs.Knapsack.{Instance, IsInstance, AreNumbers, IsKnapsackText};
ghost use Rattle.inst_text.specs.Knapsack.{knapsack_text, choice_text};
ghost use Rattle.inst_text.specs.Shop.{JobShop, IsJobShop, IsShopText, shop_text, starts_text};
ghost use Rattle.inst_text.specs.Plans.{AreStartsOf, IsKnapsackPlanText, IsShopPlanText};
ghost use Rattle.inst_text.specs.Plans.{knapsack_plan_of, shop_plan_of};

/// Law: bytes read as an instance and a choice exactly where they are a text of the two.
pub fn knapsack_plan_texts_are_read()
    ensures { (bytes : List ℕ) (i : Instance) (c : Claimed (List ℕ))
        → (knapsack_plan_of bytes ≡ Ok (i, c)) ↔ IsKnapsackPlanText bytes i c }
{}

/// Law: bytes read as a shop and start times exactly where they are a text of the two.
pub fn shop_plan_texts_are_read()
    ensures { (bytes : List ℕ) (s : JobShop) (c : Claimed (List (List ℕ)))
        → (shop_plan_of bytes ≡ Ok (s, c)) ↔ IsShopPlanText bytes s c }
{}

/// Law: the text of an instance, and behind it the text of a choice of its items, read as the two.
pub fn written_choices_are_read()
    ensures { (i : Instance) (c : Claimed (List ℕ)) → IsInstance i
        → c.stated ≤ max_stated → AreNumbers 0 (length i.items) c.plan
        → knapsack_plan_of (knapsack_text i ++ choice_text c.stated c.plan) ≡ Ok (i, c) }
{}

/// Law: the text of a shop, and behind it the text of start times of its operations, read as the two.
pub fn written_starts_are_read()
    ensures { (s : JobShop) (c : Claimed (List (List ℕ))) → IsJobShop s
        → c.stated ≤ max_stated → AreStartsOf s c.plan
        → shop_plan_of (shop_text s ++ starts_text c.stated c.plan) ≡ Ok (s, c) }
{}

/// Law: behind any text of an instance that ends with a line feed, the text of a choice of its items reads as
/// this choice, with the instance before it.
pub fn choices_are_read_behind()
    ensures { (bytes : List ℕ) (i : Instance) (c : Claimed (List ℕ)) → IsKnapsackText (bytes ++ 10 ∷ []) i
        → c.stated ≤ max_stated → AreNumbers 0 (length i.items) c.plan
        → length (bytes ++ 10 ∷ choice_text c.stated c.plan) ≤ longest_input
        → knapsack_plan_of (bytes ++ 10 ∷ choice_text c.stated c.plan) ≡ Ok (i, c) }
{}

/// Law: behind any text of a shop that ends with a line feed, the text of start times of its operations reads as
/// these start times, with the shop before them.
pub fn starts_are_read_behind()
    ensures { (bytes : List ℕ) (s : JobShop) (c : Claimed (List (List ℕ))) → IsShopText (bytes ++ 10 ∷ []) s
        → c.stated ≤ max_stated → AreStartsOf s c.plan
        → length (bytes ++ 10 ∷ starts_text c.stated c.plan) ≤ longest_input
        → shop_plan_of (bytes ++ 10 ∷ starts_text c.stated c.plan) ≡ Ok (s, c) }
{}
