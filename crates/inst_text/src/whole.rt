//! Reading a whole text, of whatever it is one.

ghost use Rattle.std.specs.Prelude.{◌≡◌, Result};
ghost use Rattle.pq_io.specs.declared.text.fault.BadInput.{BadInput};
ghost use Rattle.pq_io.specs.Lines.{Text};
ghost use Rattle.pq_io.specs.Reading.{Read, Gives, GivesAndLeaves};
ghost use Rattle.inst_text.specs.Several.{whole};

use pq_io::{ReadRefusal, TextReader};
use std::alloc::Global;

/// What can be read from the first lines of a text.
pub trait FromText: Drop + Sized {
    /// What they read as, and what is left behind them; or the first fault.
    ghost reading: { Text → Result (Read Self Text) BadInput };

    /// Takes these lines.
    fn next(alloc: Global, text: &mut TextReader<'_>) -> Result<Self, ReadRefusal>
        ensures { GivesAndLeaves (λ x. x) result text.new (reading text.old) };
}

/// What a whole text says: no line is left behind it, and it has no more bytes than an input may have.
///
/// Refuses with the first fault, a line that is left among them, and for want of memory.
#[tactic(auto, unfolding(crate::specs::Several::whole))]
pub fn read_whole<T: FromText>(alloc: Global, bytes: &[u8]) -> Result<T, ReadRefusal>
    ensures { Gives (λ x. x) result (whole T.reading bytes.now) }
{
    let mut text = TextReader::open(bytes)?;
    let value = T::next(alloc, &mut text)?;
    text.finish()?;
    Ok(value)
}
