//! Tests of the problems with their texts, of proofs of optimality, and of the search by one and by several workers.
#![tactic(auto)]

#[cfg(test)]
mod tests;
