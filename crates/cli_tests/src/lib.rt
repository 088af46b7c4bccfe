//! Tests of the top call, with streams in memory.
#![tactic(auto)]

#[cfg(test)]
mod tests;
