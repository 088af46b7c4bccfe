//! The 0/1 knapsack problem: what a feasible choice is, what it is worth and what it costs, and the tree of
//! decisions with Dantzig's bound in which a search looks for the best.
#![tactic(auto)]

mod dantzig;
mod full_words;
mod knapsack;
mod laws;
mod node;
mod order;
mod plan;
mod problem;
mod sums;
mod verdict;
mod walk;

pub use knapsack::Knapsack;
pub use laws::{
    best_is_cheapest, decisions_have_plans, one_verdict, root_bound_is_bound,
    value_and_cost_are_all,
};
pub use node::KnapNode;
pub use verdict::KnapVerdict;
pub use walk::KnapWalk;
