//! Knapsacks and choices of their items.

mod laws;
mod reading;
mod writing;

pub use laws::{knapsack_texts_are_read, written_knapsacks_are_read};
pub use reading::{next_knapsack, read_knapsack};
use std::marker::Model;
pub use writing::{write_choice, write_knapsack};

/// One item of a knapsack.
#[derive(Clone, Copy, Debug, PartialEq, Eq)]
pub struct Item {
    /// 0 to 1,000,000,000.
    pub weight: u32,
    /// 0 to 67,108,863, which is also the limit of the sum of all values.
    pub value: u32,
}

/// A knapsack: how much it takes, and the items to choose from, numbered from 0.
///
/// The capacity is at most 1,000,000,000,000, and there are at most 1,024 items, whose values add up to at
/// most 67,108,863.
#[derive(Debug, Drop)]
pub struct Items {
    pub capacity: u64,
    pub items: Vec<Item>,
}

impl Model for Items {
    ghost use Rattle.inst_text.specs.Knapsack.{Instance, IsInstance};

    ghost Value = { Instance };

    ghost view = { λ s. record { capacity = s.capacity; items = s.items.items } };

    ghost invariant = { λ s. IsInstance (record { capacity = s.capacity; items = s.items.items }) };
}

/// A choice of items: their numbers, rising, each below 1,024.
#[derive(Debug, Drop)]
pub struct Choice {
    pub numbers: Vec<u32>,
}

impl Model for Choice {
    ghost use Rattle.std.specs.Prelude.{ℕ, List};
    ghost use Rattle.inst_text.specs.Limits.{max_items};
    ghost use Rattle.inst_text.specs.Knapsack.{AreNumbers};

    ghost Value = { List ℕ };

    ghost view = { λ c. c.numbers.items };

    ghost invariant = { λ c. AreNumbers 0 max_items c.numbers.items };
}
