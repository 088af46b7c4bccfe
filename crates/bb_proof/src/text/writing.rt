//! Writing a plan and a proof.

ghost use Rattle.std.specs.Prelude.{◌≡◌, IfOk};
ghost use Rattle.bb_proof.specs.Texts.{proof_text};

use crate::proof::Proof;
use inst_text::{Choice, Claimed, write_choice};
use pq_io::{NoMemory, write_number};
use std::alloc::Global;

/// The text of a choice, its stated value and a proof, which reads as these behind an instance: the text of the
/// plan, the line `proof K`, and for each of the K tokens the line `b` or `c`.
pub fn write_proof(
    alloc: Global,
    claimed: &Claimed<Choice>,
    proof: &Proof,
) -> Result<Vec<u8>, NoMemory>
    ensures { IfOk result (λ text. text.items ≡ proof_text claimed.now proof.now) }
{
    let mut text = write_choice(alloc, claimed.stated, &claimed.plan)?;
    text.extend_from_slice(b"proof ")?;
    write_number(&mut text, proof.tokens.len() as u64)?;
    text.push(b'\n')?;
    text.reserve(2 * proof.tokens.len())?;
    for token in &proof.tokens {
        text.push(if *token { b'b' } else { b'c' })?;
        text.push(b'\n')?;
    }
    Ok(text)
}
