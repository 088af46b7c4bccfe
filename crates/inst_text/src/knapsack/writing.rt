//! Writing a knapsack, and a choice of its items.

ghost use Rattle.std.specs.Prelude.{◌≡◌, ◌++◌, ◌∷◌, [], IfOk, OnOk, Ok};
ghost use Rattle.pq_io.specs.Writing.{words_text};
ghost use Rattle.inst_text.specs.Knapsack.{two_words, knapsack_of, knapsack_text, choice_text};

use crate::knapsack::{Choice, Item, Items};
use crate::numbers::write_two;
use pq_io::{NoMemory, write_number, write_numbers};
use std::alloc::Global;

// Appends the line of an item.
fn write_item(text: &mut Vec<u8>, item: &Item) -> Result<(), NoMemory>
    ensures { OnOk result (text.new.items
        ≡ text.old.items ++ (words_text (two_words item.now.weight item.now.value) ++ 10 ∷ [])) }
{
    write_two(text, u64::from(item.weight), u64::from(item.value))?;
    text.push(b'\n')?;
    Ok(())
}

/// The text of a knapsack: the line `n W`, and a line `weight value` for each item.
///
/// `NoMemory` comes where there is none for the text, in which it is linear.
pub fn write_knapsack(alloc: Global, items: &Items) -> Result<Vec<u8>, NoMemory>
    ensures written { IfOk result (λ text. text.items ≡ knapsack_text items.now) }
    // What is written reads back.
    ensures read { IfOk result (λ text. knapsack_of text.items ≡ Ok items.now) }
{
    let mut text = Vec::new(alloc);
    write_two(&mut text, items.items.len() as u64, items.capacity)?;
    text.push(b'\n')?;
    for item in &items.items {
        write_item(&mut text, item)?;
    }
    Ok(text)
}

/// The text of a choice and its value: the line `value V`, and the line `items` with the item numbers.
pub fn write_choice(alloc: Global, value: u32, choice: &Choice) -> Result<Vec<u8>, NoMemory>
    ensures { IfOk result (λ text. text.items ≡ choice_text value choice.now) }
{
    let mut text = Vec::from_slice(alloc, b"value ")?;
    write_number(&mut text, u64::from(value))?;
    text.extend_from_slice(b"\nitems")?;
    write_numbers(&mut text, &choice.numbers)?;
    text.push(b'\n')?;
    Ok(text)
}
