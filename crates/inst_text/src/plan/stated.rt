//! Reading the number that is stated for a plan.

ghost use Rattle.std.specs.Prelude.{◌≡◌};
ghost use Rattle.pq_io.specs.Reading.{Leaves, line_at};
ghost use Rattle.inst_text.specs.Plans.{stated_of};

use crate::limits::MAX_STATED;
use pq_io::{BadInput, Cause, TextReader, WordReader, on_line};

// The number that is stated behind this word.
#[tactic(auto, unfolding(crate::specs::Plans::stated_of))]
fn stated(words: &mut WordReader<'_>, word: &[u8]) -> Result<u32, Cause>
    ensures { result ≡ stated_of word.now words.old.words }
{
    words.fixed(word)?;
    let number = words.number(0, u64::from(MAX_STATED))?;
    words.finish()?;
    Ok(number as u32)
}

/// Takes the line with the number that is stated behind this word.
#[tactic(auto, unfolding(pq_io::specs::Reading::line_at))]
pub(crate) fn next_stated(text: &mut TextReader<'_>, word: &[u8]) -> Result<u32, BadInput>
    ensures { Leaves (λ n. n) result text.new (line_at (stated_of word.now) text.old) }
{
    let mut words = text.next_line()?;
    let line = words.line();
    on_line(line, stated(&mut words, word))
}
