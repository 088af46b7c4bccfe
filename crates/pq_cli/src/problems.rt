//! The problems that the program uses.

mod active_shop;
mod knapsack;
mod shop;
