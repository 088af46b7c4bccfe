//! Tests of the crates below the search: streams and lines, words, histories, gates, each queue, and lanes. Each test
//! has its crate's public calls alone.
#![tactic(auto)]

#[cfg(test)]
mod tests;
