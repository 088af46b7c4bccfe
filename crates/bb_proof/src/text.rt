//! The texts of proofs.

mod laws;
mod reading;
mod writing;

pub use laws::{proof_texts_are_read, proofs_are_read_behind, written_proofs_are_read};
pub use reading::read_proof;
pub use writing::write_proof;
