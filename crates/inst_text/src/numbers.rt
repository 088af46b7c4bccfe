//! Writing two numbers with a blank between them.

ghost use Rattle.std.specs.Prelude.{◌≡◌, ◌++◌, OnOk};
ghost use Rattle.pq_io.specs.Writing.{words_text};
ghost use Rattle.inst_text.specs.Knapsack.{two_words};

use pq_io::{NoMemory, write_number};

/// Appends the two numbers, with a blank between them.
pub(crate) fn write_two(text: &mut Vec<u8>, first: u64, second: u64) -> Result<(), NoMemory>
    ensures { OnOk result (text.new.items ≡ text.old.items ++ words_text (two_words first second)) }
{
    write_number(text, first)?;
    text.push(b' ')?;
    write_number(text, second)?;
    Ok(())
}
