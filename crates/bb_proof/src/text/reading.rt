//! Reading an instance, a plan and a proof.

ghost use Rattle.std.specs.Prelude.{ℕ, ◌≡◌, ◌≤◌, List, Bool, IfOk, Ok};
ghost use Rattle.pq_io.specs.Reading.{Leaves, Gives, GivesAndLeaves, line_at};
ghost use Rattle.inst_text.specs.declared.plan.Claimed.{Claimed};
ghost use Rattle.inst_text.specs.Knapsack.{Instance};
ghost use Rattle.bb_proof.specs.Tokens.{proof_limit};
ghost use Rattle.bb_proof.specs.Texts.{count_of, token_in, token_of, tokens_at, proof_at, proof_of, IsProofText};

use crate::proof::{PROOF_LIMIT, Proof};
use inst_text::{Choice, Claimed, Items, next_choice, next_knapsack};
use pq_io::{BadInput, Cause, ReadRefusal, TextReader, WordReader, on_line};
use std::alloc::Global;

// How many tokens there are.
#[tactic(auto, unfolding(crate::specs::Texts::count_of))]
fn count(words: &mut WordReader<'_>) -> Result<u64, Cause>
    ensures exact { result ≡ count_of words.old.words }
    ensures range { IfOk result (λ count. (1 ≤ count) × (count ≤ proof_limit)) }
{
    words.fixed(b"proof")?;
    let count = words.number(1, u64::from(PROOF_LIMIT))?;
    words.finish()?;
    Ok(count)
}

// The token that the word is.
fn token_in(word: &[u8]) -> Result<bool, Cause>
    ensures { result ≡ token_in word.now }
{
    if word == b"b".as_slice() {
        Ok(true)
    } else if word == b"c".as_slice() {
        Ok(false)
    } else {
        Err(Cause::Word)
    }
}

// The token of the line.
#[tactic(auto, unfolding(crate::specs::Texts::token_of))]
fn token(words: &mut WordReader<'_>) -> Result<bool, Cause>
    ensures { result ≡ token_of words.old.words }
{
    let token = token_in(words.word()?)?;
    words.finish()?;
    Ok(token)
}

// Takes the line of how many tokens there are.
#[tactic(auto, unfolding(pq_io::specs::Reading::line_at))]
fn next_count(text: &mut TextReader<'_>) -> Result<u64, BadInput>
    ensures exact { Leaves (λ n. n) result text.new (line_at count_of text.old) }
    ensures range { IfOk result (λ count. (1 ≤ count) × (count ≤ proof_limit)) }
{
    let mut words = text.next_line()?;
    let line = words.line();
    on_line(line, count(&mut words))
}

// Takes the line of a token.
#[tactic(auto, unfolding(pq_io::specs::Reading::line_at))]
fn next_token(text: &mut TextReader<'_>) -> Result<bool, BadInput>
    ensures { Leaves (λ token. token) result text.new (line_at token_of text.old) }
{
    let mut words = text.next_line()?;
    let line = words.line();
    on_line(line, token(&mut words))
}

// Takes the lines of this many tokens.
fn next_tokens(
    alloc: Global,
    text: &mut TextReader<'_>,
    count: u64,
) -> Result<Vec<bool>, ReadRefusal>
    ensures { GivesAndLeaves (λ tokens. tokens.items) result text.new (tokens_at count text.old) }
{
    let mut tokens = Vec::with_capacity(alloc, count as usize)?;
    for _ in 0..count {
        tokens.push(next_token(text)?)?;
    }
    Ok(tokens)
}

// Takes the lines of a proof.
#[tactic(auto, unfolding(crate::specs::Texts::proof_at))]
fn next_proof(alloc: Global, text: &mut TextReader<'_>) -> Result<Proof, ReadRefusal>
    ensures { GivesAndLeaves (λ proof. proof) result text.new (proof_at text.old) }
{
    let count = next_count(text)?;
    let tokens = next_tokens(alloc, text, count)?;
    Ok(Proof { tokens })
}

/// The instance, the choice of its items and the proof that the text spells: the lines of the instance and of the
/// plan, as `read_plan_knapsack` reads them, a line `proof K`, and then K lines, each the word `b` to branch or `c`
/// to close.
///
/// K is 1 to 2,097,152. A text that is no such proof is refused with its first fault: the number of the line, and
/// the cause, which is `Word` where a word is neither `b` nor `c`. Linear in the text, which is not copied.
pub fn read_proof(
    alloc: Global,
    bytes: &[u8],
) -> Result<(Items, Claimed<Choice>, Proof), ReadRefusal>
    // Which instance, choice and proof, and which fault it is.
    ensures exact { Gives (λ r. (r.0, (r.1, r.2))) result (proof_of bytes.now) }
    // What is read is spelled so.
    ensures spelled { IfOk result (λ r. IsProofText bytes.now r.0 r.1 r.2) }
    // What is spelled so is read, unless memory runs out.
    ensures read { (i : Instance) (c : Claimed (List ℕ)) (tokens : List Bool) → IsProofText bytes.now i c tokens
        → let read : Instance × (Claimed (List ℕ) × List Bool) = (i, (c, tokens)) in
        Gives (λ r. (r.0, (r.1, r.2))) result (Ok read) }
{
    whole_proof(alloc, bytes)
}

// What `read_proof` gives, read off its definition.
#[tactic(auto, unfolding(crate::specs::Texts::proof_of, crate::specs::Texts::whole, crate::specs::Texts::both))]
fn whole_proof(alloc: Global, bytes: &[u8]) -> Result<(Items, Claimed<Choice>, Proof), ReadRefusal>
    ensures { Gives (λ r. (r.0, (r.1, r.2))) result (proof_of bytes.now) }
{
    let mut text = TextReader::open(bytes)?;
    let items = next_knapsack(alloc, &mut text)?;
    let count = items.items.len() as u64;
    let choice = next_choice(alloc, &mut text, count)?;
    let proof = next_proof(alloc, &mut text)?;
    text.finish()?;
    Ok((items, choice, proof))
}
