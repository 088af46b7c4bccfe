//! The limits of instances, plans and scripts.

use pq_model::MAX_SEATS;
use pq_words::KEY_LIMIT;

/// How many items a knapsack has at most.
pub const MAX_ITEMS: u32 = 1_024;
/// The greatest weight of an item.
pub const MAX_WEIGHT: u32 = 1_000_000_000;
/// How much a knapsack takes at most.
pub const MAX_KNAPSACK_CAPACITY: u64 = 1_000_000_000_000;
/// How many jobs a shop has at most.
pub const MAX_JOBS: u32 = 100;
/// How many machines a shop has at most.
pub const MAX_MACHINES: u32 = 100;
/// How many operations a shop has at most.
pub const MAX_OPERATIONS: u32 = 1_024;
/// What the values of all items, or the times of all operations, add up to at most. No start time is above it
/// either.
pub const MAX_TOTAL: u32 = KEY_LIMIT - 1;
/// The greatest number that may be stated for a plan.
pub const MAX_STATED: u32 = u32::MAX;
/// How many lanes a script has at most: one for each seat of a queue.
pub const MAX_LANES: u32 = MAX_SEATS;
/// How many commands the lanes of a script have at most, all together.
pub const MAX_COMMANDS: u32 = 1_048_576;
/// The greatest size of a shop that is made.
pub const MAX_MADE_SHOP: u32 = 32;
/// The greatest weight and value of an item that is made. Both are 1 at least.
pub const MAX_MADE_NUMBER: u32 = 100;
/// The greatest time of an operation that is made. It is 1 at least.
pub const MAX_MADE_TIME: u32 = 20;
/// How many inserts a lane that is made has at most.
pub const MAX_MADE_INSERTS: u32 = 1_000;
