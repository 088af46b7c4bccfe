//! What is made where a proof is asked for.

use crate::proof::Proof;

/// What `prove` gives.
#[derive(Debug, Drop)]
pub enum Made {
    /// The canonical proof.
    Proof(Proof),
    /// The canonical proof has more than 2,097,152 tokens.
    TooLong,
    /// Memory ran out.
    NoMemory,
}
