//! The texts of instances and plans, read and written.
#![tactic(auto)]

mod knapsack;
mod limits;
mod making;
mod numbers;
mod plan;
mod script;
mod shop;
mod whole;

pub use knapsack::{
    Choice, Item, Items, knapsack_texts_are_read, next_knapsack, read_knapsack, write_choice,
    write_knapsack, written_knapsacks_are_read,
};
pub use limits::{
    MAX_COMMANDS, MAX_ITEMS, MAX_JOBS, MAX_KNAPSACK_CAPACITY, MAX_LANES, MAX_MACHINES,
    MAX_MADE_INSERTS, MAX_MADE_NUMBER, MAX_MADE_SHOP, MAX_MADE_TIME, MAX_OPERATIONS, MAX_STATED,
    MAX_TOTAL, MAX_WEIGHT,
};
pub use making::{make_knapsack, make_script, make_shop, smallest_made, states_by_hand};
pub use plan::{
    Claimed, choices_are_read_behind, knapsack_plan_texts_are_read, next_choice,
    read_plan_knapsack, read_plan_shop, shop_plan_texts_are_read, starts_are_read_behind,
    written_choices_are_read, written_starts_are_read,
};
pub use script::{Script, read_script, script_texts_are_read};
pub use shop::{
    Jobs, Operation, Starts, next_shop, read_shop, shop_texts_are_read, write_shop, write_starts,
    written_shops_are_read,
};
pub use whole::{FromText, read_whole};
