//! A line of a label and numbers, of which most answers are made.

ghost use Rattle.std.specs.Prelude.{◌≡◌, ◌++◌, [], ◌∷◌, IfOk};
ghost use Rattle.std.specs.Fmt.{decimal};
ghost use Rattle.std.specs.List.{flat_map};

use pq_io::{NoMemory, write_numbers};
use std::alloc::Global;

/// A line of a label and numbers, with one blank before each number.
pub fn labelled(alloc: Global, label: &[u8], numbers: &[u32]) -> Result<Vec<u8>, NoMemory>
    ensures { IfOk result (λ text. text.items ≡ label.now ++ flat_map (λ n. 32 ∷ decimal n) numbers.now ++ 10 ∷ []) }
{
    let mut text = Vec::from_slice(alloc, label)?;
    write_numbers(&mut text, numbers)?;
    text.push(b'\n')?;
    Ok(text)
}
