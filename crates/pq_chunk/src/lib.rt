//! The queue of chunks: its entries stand in chunks of 64 places. Inserts and removals draw places by addition.
#![tactic(auto)]

mod laws;
mod rule;
mod views;

pub use laws::{
    claims_keep, count_arms_keep, counts_keep, draws_keep, dry_draws_keep, fresh_words_open,
    front_arms_keep, front_loads_keep, fulls_keep, totals_fit, within_keeps,
};
pub use rule::ChunkRule;
pub use views::{BuilderView, ChunkView, FrontView, Reading, Stage};
