//! The ranges of the settings, and what a setting is where it is not said.

ghost use Rattle.std.specs.Prelude.{◌≡◌, ◌≤◌, IfSome};
ghost use Rattle.inst_text.specs.Limits.{max_made_inserts};
ghost use Rattle.cli_words.specs.Words.{option_limit};
ghost use Rattle.cli_words.specs.Limits.{IsMadeSize};
ghost use Rattle.cli_words.specs.Queues.{profile_of};
ghost use Rattle.cli_words.specs.Ranges.{within, branching_for, workers_for, nodes_for, room_for, capacity_for};
ghost use Rattle.cli_words.specs.Ranges.{size_for, seed_for, inserts_for};

use crate::command::{Branching, Kind};
use crate::queues::Which;
use inst_text::{MAX_ITEMS, MAX_MADE_INSERTS, MAX_MADE_SHOP};

// The seed of what is made where it is not said.
const DEFAULT_SEED: u64 = 0;

// How many items are made where it is not said.
const DEFAULT_ITEMS: u64 = 100;

// How many jobs and machines are made where it is not said.
const DEFAULT_JOBS: u64 = 6;

// How many entries each lane of a drill inserts where it is not said.
const DEFAULT_INSERTS: u64 = 1_000;

/// Only a shop has two ways to branch; where none is said, it is by dispatching.
pub fn branching_for(kind: Kind, said: Option<Branching>) -> Option<Branching>
    ensures { result ≡ branching_for kind said }
{
    match (kind, said) {
        (Kind::Shop, said) => Some(said.unwrap_or(Branching::Dispatch)),
        (Kind::Knapsack, None) => Some(Branching::Dispatch),
        (Kind::Knapsack, Some(_)) => None,
    }
}

/// How many work at a search over a queue, or at a drill of it.
pub fn workers_for(queue: Which, said: Option<u64>) -> Option<u32>
    ensures exact { result ≡ workers_for queue said }
    ensures range { IfSome result (λ n. (1 ≤ n) × (n ≤ (profile_of queue).most_callers)) }
{
    let profile = queue.profile();
    within(
        1,
        profile.most_callers,
        said.unwrap_or(u64::from(profile.default_workers)),
    )
}

/// How many nodes a search over a queue may make.
pub fn nodes_for(queue: Which, said: Option<u64>) -> Option<u32>
    ensures exact { result ≡ nodes_for queue said }
    ensures range { IfSome result (λ n. (1 ≤ n) × (n ≤ (profile_of queue).most_nodes)) }
{
    let profile = queue.profile();
    within(
        1,
        profile.most_nodes,
        said.unwrap_or(u64::from(profile.default_nodes)),
    )
}

/// How many nodes its queue takes: where it is not said, as many as nodes and workers together.
pub fn room_for(queue: Which, workers: u32, nodes: u32, said: Option<u64>) -> Option<u32>
    ensures exact { result ≡ room_for queue workers nodes said }
    ensures range { IfSome result (λ n. (workers ≤ n) × (n ≤ (profile_of queue).most_capacity)) }
{
    within(
        workers,
        queue.profile().most_capacity,
        said.unwrap_or(u64::from(nodes) + u64::from(workers)),
    )
}

/// How many entries a traced queue takes.
pub fn capacity_for(queue: Which, said: Option<u64>) -> Option<u32>
    ensures exact { result ≡ capacity_for queue said }
    ensures range { IfSome result (λ n. (1 ≤ n) × (n ≤ (profile_of queue).most_capacity)) }
{
    let profile = queue.profile();
    within(
        1,
        profile.most_capacity,
        said.unwrap_or(u64::from(profile.default_capacity)),
    )
}

/// How many items of a knapsack are made, or how many jobs and machines of a shop.
pub fn size_for(kind: Kind, said: Option<u64>) -> Option<u32>
    ensures exact { result ≡ size_for kind said }
    ensures range { IfSome result (IsMadeSize kind) }
{
    match kind {
        Kind::Knapsack => within(0, MAX_ITEMS, said.unwrap_or(DEFAULT_ITEMS)),
        Kind::Shop => within(1, MAX_MADE_SHOP, said.unwrap_or(DEFAULT_JOBS)),
    }
}

/// The seed of what is made.
pub fn seed_for(said: Option<u64>) -> Option<u32>
    ensures exact { result ≡ seed_for said }
    ensures range { IfSome result (λ n. n ≤ option_limit) }
{
    within(0, u32::MAX, said.unwrap_or(DEFAULT_SEED))
}

/// How many entries each lane of a drill inserts.
pub fn inserts_for(said: Option<u64>) -> Option<u32>
    ensures exact { result ≡ inserts_for said }
    ensures range { IfSome result (λ n. n ≤ max_made_inserts) }
{
    within(0, MAX_MADE_INSERTS, said.unwrap_or(DEFAULT_INSERTS))
}

// The number, where it lies from `low` to `high`.
fn within(low: u32, high: u32, number: u64) -> Option<u32>
    ensures exact { result ≡ within low high number }
    ensures range { IfSome result (λ n. (low ≤ n) × (n ≤ high)) }
{
    if u64::from(low) <= number && number <= u64::from(high) {
        Some(number as u32)
    } else {
        None
    }
}
