//! Reading a choice behind its knapsack.

ghost use Rattle.std.specs.Prelude.{◌≡◌, ◌≤◌, IfOk, Ok, List, ℕ, length};
ghost use Rattle.pq_io.specs.Reading.{Leaves, Gives, GivesAndLeaves, on_line, line_at};
ghost use Rattle.inst_text.specs.declared.plan.Claimed.{Claimed};
ghost use Rattle.inst_text.specs.Limits.{max_items};
ghost use Rattle.inst_text.specs.Several.{both};
ghost use Rattle.inst_text.specs.Knapsack.{Instance, instance_at};
ghost use Rattle.inst_text.specs.Plans.{item_number_of, item_number_at, item_numbers_of, choice_of, choice_at};
ghost use Rattle.inst_text.specs.Plans.{IsKnapsackPlanText, knapsack_plan_of};

use crate::knapsack::{Choice, Items, next_knapsack};
use crate::plan::Claimed;
use crate::plan::stated::next_stated;
use crate::whole::{FromText, read_whole};
use pq_io::{BadInput, Cause, ReadRefusal, TextReader, WordReader, digits, on_line};
use std::alloc::Global;

// The item number below `count`, and not below `low`, that the word spells.
#[tactic(auto, unfolding(crate::specs::Plans::item_number_of))]
fn item_number(word: &[u8], count: u64, low: u64) -> Result<u32, Cause>
    requires { count ≤ max_items }
    ensures { result ≡ item_number_of count low word.now }
{
    let number = digits(word, low, count)?;
    if number >= count {
        return Err(Cause::Range);
    }
    Ok(number as u32)
}

// Takes an item number, and tells the line where it is faulty.
#[tactic(auto, unfolding(crate::specs::Plans::item_number_at))]
fn next_number(words: &mut WordReader<'_>, count: u64, low: u64) -> Result<u32, BadInput>
    requires { count ≤ max_items }
    ensures exact { Leaves (λ n. n) result words.new.words
        (on_line words.old.number (item_number_at count low words.old.words)) }
    ensures line { words.new.number ≡ words.old.number }
{
    let line = words.line();
    let word = on_line(line, words.word())?;
    on_line(line, item_number(word, count, low))
}

// The item numbers up to the end of the line, which rise, each below `count`.
fn item_numbers(
    alloc: Global,
    words: &mut WordReader<'_>,
    count: u64,
) -> Result<Vec<u32>, ReadRefusal>
    requires { count ≤ max_items }
    ensures { Gives (λ numbers. numbers.items) result
        (on_line words.old.number (item_numbers_of count 0 words.old.words)) }
{
    let mut numbers = Vec::new(alloc);
    let mut low = 0;
    while words.finish().is_err() {
        let number = next_number(words, count, low)?;
        numbers.push(number)?;
        low = u64::from(number) + 1;
    }
    Ok(numbers)
}

// Takes the line of a choice among this many items.
#[tactic(auto, unfolding(pq_io::specs::Reading::line_at, crate::specs::Plans::choice_of))]
fn next_numbers(
    alloc: Global,
    text: &mut TextReader<'_>,
    count: u64,
) -> Result<Vec<u32>, ReadRefusal>
    requires { count ≤ max_items }
    ensures { GivesAndLeaves (λ numbers. numbers.items) result text.new (line_at (choice_of count) text.old) }
{
    let mut words = text.next_line()?;
    let line = words.line();
    on_line(line, words.fixed(b"items"))?;
    item_numbers(alloc, &mut words, count)
}

/// Takes the lines of a plan of a knapsack of this many items: `value V`, and `items` with the item numbers.
///
/// Refuses with the first fault, after which nothing is promised of the lines that are left.
#[tactic(auto, unfolding(crate::specs::Plans::choice_at))]
pub fn next_choice(
    alloc: Global,
    text: &mut TextReader<'_>,
    count: u64,
) -> Result<Claimed<Choice>, ReadRefusal>
    requires { count ≤ max_items }
    ensures { GivesAndLeaves (λ c. c) result text.new (choice_at count text.old) }
{
    let stated = next_stated(text, b"value")?;
    let numbers = next_numbers(alloc, text, count)?;
    Ok(Claimed {
        stated,
        plan: Choice { numbers },
    })
}

/// The instance and the choice of its items that the text spells: the lines of the instance, as
/// `read_knapsack` reads them, a line `value V`, and a line `items` with the item numbers behind the word.
///
/// V is 0 to 4,294,967,295. An item number is below the number of items and above the one before it; else it is
/// out of range. A text that is no such plan is refused with its first fault: the number of the line, and the
/// cause. Linear in the text, which is not copied.
#[tactic(auto, unfolding(crate::specs::Plans::knapsack_plan_of))]
pub fn read_plan_knapsack(
    alloc: Global,
    bytes: &[u8],
) -> Result<(Items, Claimed<Choice>), ReadRefusal>
    // Which instance and which choice, and which fault it is.
    ensures exact { Gives (λ r. r) result (knapsack_plan_of bytes.now) }
    // What is read is spelled so.
    ensures spelled { IfOk result (λ r. IsKnapsackPlanText bytes.now r.0 r.1) }
    // What is spelled so is read, unless memory runs out.
    ensures read { (i : Instance) (c : Claimed (List ℕ)) → IsKnapsackPlanText bytes.now i c
        → Gives (λ r. r) result (Ok (i, c)) }
{
    read_whole::<(Items, Claimed<Choice>)>(alloc, bytes)
}

impl FromText for (Items, Claimed<Choice>) {
    ghost reading = { both instance_at (λ i. choice_at (length i.items)) };

    #[tactic(auto, unfolding(crate::specs::Several::both))]
    fn next(
        alloc: Global,
        text: &mut TextReader<'_>,
    ) -> Result<(Items, Claimed<Choice>), ReadRefusal> {
        let items = next_knapsack(alloc, text)?;
        let count = items.items.len() as u64;
        let choice = next_choice(alloc, text, count)?;
        Ok((items, choice))
    }
}
