//! What is made, worked by hand.

ghost use Rattle.std.specs.Prelude.{◌≡◌, ◌/◌, ◌^◌, [], ◌∷◌};
ghost use Rattle.inst_text.specs.Generator.{state_after, made_knapsack, made_shop};

/// Law: the first two states of seed 0, and what is drawn from.
pub fn states_by_hand()
    ensures first { state_after 0 1 ≡ 1082269761 }
    ensures first_bits { state_after 0 1 / 2 ^ 16 ≡ 16514 }
    ensures second { state_after 0 2 ≡ 1152992998833853505 }
    ensures second_bits { state_after 0 2 / 2 ^ 16 ≡ 17593276959745 }
{}

/// Law: the smallest knapsack and the smallest shop of seed 0.
pub fn smallest_made()
    ensures knapsack { made_knapsack 0 1 ≡ record { capacity = 7; items = record { weight = 15; value = 46 } ∷ [] } }
    ensures shop { made_shop 0 1 ≡ record { machines = 1; rows = (record { machine = 0; time = 6 } ∷ []) ∷ [] } }
{}
