//! Proofs that no choice of a knapsack's items has more than a value, which are checked without a search.
#![tactic(auto)]

mod laws;
mod made;
mod proof;
mod proving;
mod text;
mod verdict;
mod verifying;
mod walking;

pub use laws::{
    accepted_have_no_bad_token, accepted_proofs_prove, best_plans_are_proved,
    canonical_is_accepted, worked_proofs,
};
pub use made::Made;
pub use proof::{PROOF_LIMIT, Proof};
pub use proving::prove;
pub use text::{
    proof_texts_are_read, proofs_are_read_behind, read_proof, write_proof, written_proofs_are_read,
};
pub use verdict::ProofVerdict;
pub use verifying::verify;
