//! Reading a knapsack.

ghost use Rattle.std.specs.Prelude.{◌≡◌, ◌^◌, ◌<◌, IfOk, Ok};
ghost use Rattle.pq_io.specs.Reading.{Leaves, Gives, GivesAndLeaves, line_at};
ghost use Rattle.inst_text.specs.Limits.{max_total};
ghost use Rattle.inst_text.specs.Knapsack.{Instance, IsKnapsackText, head_of, item_of, items_at, instance_at};
ghost use Rattle.inst_text.specs.Knapsack.{knapsack_of};

use crate::knapsack::{Item, Items};
use crate::limits::{MAX_ITEMS, MAX_KNAPSACK_CAPACITY, MAX_TOTAL, MAX_WEIGHT};
use crate::whole::{FromText, read_whole};
use pq_io::{BadInput, Cause, ReadRefusal, TextReader, WordReader, on_line};
use std::alloc::Global;

// The number of items, and the capacity.
#[tactic(auto, unfolding(crate::specs::Knapsack::head_of))]
fn head(words: &mut WordReader<'_>) -> Result<(u64, u64), Cause>
    ensures { result ≡ head_of words.old.words }
{
    let count = words.number(0, u64::from(MAX_ITEMS))?;
    let capacity = words.number(0, MAX_KNAPSACK_CAPACITY)?;
    words.finish()?;
    Ok((count, capacity))
}

// An item whose value is at most `room`.
#[tactic(auto, unfolding(crate::specs::Knapsack::item_of))]
fn item(words: &mut WordReader<'_>, room: u64) -> Result<Item, Cause>
    requires { room < 2 ^ 32 }
    ensures { result ≡ item_of room words.old.words }
{
    let weight = words.number(0, u64::from(MAX_WEIGHT))?;
    let value = words.number(0, room)?;
    words.finish()?;
    Ok(Item {
        weight: weight as u32,
        value: value as u32,
    })
}

// Takes the first line.
#[tactic(auto, unfolding(pq_io::specs::Reading::line_at))]
fn next_head(text: &mut TextReader<'_>) -> Result<(u64, u64), BadInput>
    ensures { Leaves (λ h. h) result text.new (line_at head_of text.old) }
{
    let mut words = text.next_line()?;
    let line = words.line();
    on_line(line, head(&mut words))
}

// Takes the line of an item whose value is at most `room`.
#[tactic(auto, unfolding(pq_io::specs::Reading::line_at))]
fn next_item(text: &mut TextReader<'_>, room: u64) -> Result<Item, BadInput>
    requires { room < 2 ^ 32 }
    ensures { Leaves (λ i. i) result text.new (line_at (item_of room) text.old) }
{
    let mut words = text.next_line()?;
    let line = words.line();
    on_line(line, item(&mut words, room))
}

// Takes the lines of this many items.
fn next_items(
    alloc: Global,
    text: &mut TextReader<'_>,
    count: u64,
) -> Result<Vec<Item>, ReadRefusal>
    ensures { GivesAndLeaves (λ items. items.items) result text.new (items_at count max_total text.old) }
{
    let mut items = Vec::with_capacity(alloc, count as usize)?;
    let mut room = u64::from(MAX_TOTAL);
    for _ in 0..count {
        let item = next_item(text, room)?;
        room -= u64::from(item.value);
        items.push(item)?;
    }
    Ok(items)
}

/// Takes the lines of an instance: `n W`, and a line for each item.
///
/// Refuses with the first fault, after which nothing is promised of the lines that are left.
#[tactic(auto, unfolding(crate::specs::Knapsack::instance_at))]
pub fn next_knapsack(alloc: Global, text: &mut TextReader<'_>) -> Result<Items, ReadRefusal>
    ensures { GivesAndLeaves (λ i. i) result text.new (instance_at text.old) }
{
    let (count, capacity) = next_head(text)?;
    let items = next_items(alloc, text, count)?;
    Ok(Items { capacity, items })
}

/// The instance that the text spells: a line `n W`, and then n lines `weight value`.
///
/// n is 0 to 1,024, W is 0 to 1,000,000,000,000, a weight is 0 to 1,000,000,000, a value is 0 to 67,108,863,
/// and so is the sum of the values. A text that is no such instance is refused with its first fault: the
/// number of the line, and the cause. Linear in the text, which is not copied; the items are reserved once.
#[tactic(auto, unfolding(crate::specs::Knapsack::knapsack_of))]
pub fn read_knapsack(alloc: Global, bytes: &[u8]) -> Result<Items, ReadRefusal>
    // Which instance, and which fault it is.
    ensures exact { Gives (λ i. i) result (knapsack_of bytes.now) }
    // What is read is spelled so.
    ensures spelled { IfOk result (λ i. IsKnapsackText bytes.now i) }
    // What is spelled so is read, unless memory runs out.
    ensures read { (i : Instance) → IsKnapsackText bytes.now i → Gives (λ j. j) result (Ok i) }
{
    read_whole::<Items>(alloc, bytes)
}

impl FromText for Items {
    ghost reading = { instance_at };

    fn next(alloc: Global, text: &mut TextReader<'_>) -> Result<Items, ReadRefusal> {
        next_knapsack(alloc, text)
    }
}
