//! What the text of a value says.

ghost use Rattle.std.specs.Prelude.{◌≡◌};
ghost use Rattle.cli_words.specs.Words.{kind_of, branching_of, number_in};

use crate::command::{Branching, Kind};
use pq_io::digits;

/// The problem of this name.
pub fn kind_of(word: &[u8]) -> Option<Kind>
    ensures { result ≡ kind_of word.now }
{
    if word == b"knapsack".as_slice() {
        Some(Kind::Knapsack)
    } else if word == b"shop".as_slice() {
        Some(Kind::Shop)
    } else {
        None
    }
}

/// The branching of this name.
pub fn branching_of(word: &[u8]) -> Option<Branching>
    ensures { result ≡ branching_of word.now }
{
    if word == b"dispatch".as_slice() {
        Some(Branching::Dispatch)
    } else if word == b"active".as_slice() {
        Some(Branching::Active)
    } else {
        None
    }
}

// The greatest number that the word of an option may spell; no option takes a greater one.
const OPTION_LIMIT: u64 = u32::MAX as u64;

/// The number that the word spells, at most `OPTION_LIMIT`.
pub fn number_in(word: &[u8]) -> Option<u64>
    ensures { result ≡ number_in word.now }
{
    match digits(word, 0, OPTION_LIMIT) {
        Ok(number) => Some(number),
        Err(_) => None,
    }
}
