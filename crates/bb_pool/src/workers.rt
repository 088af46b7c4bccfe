//! The search by several workers on threads: a worker's turn, its run, the runs of all, and their end.

mod ending;
mod opening;
mod running;
mod searching;
mod shared;
mod turn;

pub use searching::search;
