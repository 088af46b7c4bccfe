//! Reading start times behind their shop.

ghost use Rattle.std.specs.Prelude.{◌≡◌, map, IfOk, Ok, List, ℕ, length};
ghost use Rattle.pq_io.specs.Reading.{Leaves, Gives, GivesAndLeaves, number_at, on_line, line_at};
ghost use Rattle.inst_text.specs.declared.plan.Claimed.{Claimed};
ghost use Rattle.inst_text.specs.Limits.{max_total};
ghost use Rattle.inst_text.specs.Several.{both};
ghost use Rattle.inst_text.specs.Shop.{JobShop, shop_at};
ghost use Rattle.inst_text.specs.Plans.{line_starts_on, start_row_of, start_rows_at, starts_at};
ghost use Rattle.inst_text.specs.Plans.{IsShopPlanText, shop_plan_of};

use crate::limits::MAX_TOTAL;
use crate::plan::Claimed;
use crate::plan::stated::next_stated;
use crate::shop::{Jobs, Starts, next_shop};
use crate::whole::{FromText, read_whole};
use pq_io::{BadInput, ReadRefusal, TextReader, WordReader, on_line};
use std::alloc::Global;

// Takes a start time, and tells the line where it is faulty.
fn next_start(words: &mut WordReader<'_>) -> Result<u32, BadInput>
    ensures exact { Leaves (λ t. t) result words.new.words
        (on_line words.old.number (number_at 0 max_total words.old.words)) }
    ensures line { words.new.number ≡ words.old.number }
{
    let line = words.line();
    let start = on_line(line, words.number(0, u64::from(MAX_TOTAL)))?;
    Ok(start as u32)
}

// Takes this many start times.
fn next_start_times(
    alloc: Global,
    words: &mut WordReader<'_>,
    count: u64,
) -> Result<Vec<u32>, ReadRefusal>
    ensures exact { GivesAndLeaves (λ row. row.items) result words.new.words
        (line_starts_on words.old.number count words.old.words) }
    ensures line { words.new.number ≡ words.old.number }
{
    let mut row = Vec::with_capacity(alloc, count as usize)?;
    for _ in 0..count {
        let start = next_start(words)?;
        row.push(start)?;
    }
    Ok(row)
}

// Takes the line of a job's start times, this many of them.
#[tactic(auto, unfolding(pq_io::specs::Reading::line_at, crate::specs::Plans::start_row_of))]
fn next_start_row(
    alloc: Global,
    text: &mut TextReader<'_>,
    count: u64,
) -> Result<Vec<u32>, ReadRefusal>
    ensures { GivesAndLeaves (λ row. row.items) result text.new (line_at (start_row_of count) text.old) }
{
    let mut words = text.next_line()?;
    let line = words.line();
    let row = next_start_times(alloc, &mut words, count)?;
    on_line(line, words.finish())?;
    Ok(row)
}

// Takes the lines of the start times of so many jobs, this many each.
fn next_start_rows(
    alloc: Global,
    text: &mut TextReader<'_>,
    jobs: u64,
    count: u64,
) -> Result<Vec<Vec<u32>>, ReadRefusal>
    ensures { GivesAndLeaves (λ rows. map (λ row. row.items) rows.items) result text.new
        (start_rows_at jobs count text.old) }
{
    let mut rows = Vec::with_capacity(alloc, jobs as usize)?;
    for _ in 0..jobs {
        let row = next_start_row(alloc, text, count)?;
        rows.push(row)?;
    }
    Ok(rows)
}

// Takes the lines of a plan of a shop of so many jobs and machines.
#[tactic(auto, unfolding(crate::specs::Plans::starts_at))]
fn next_starts(
    alloc: Global,
    text: &mut TextReader<'_>,
    jobs: u64,
    machines: u64,
) -> Result<Claimed<Starts>, ReadRefusal>
    ensures { GivesAndLeaves (λ c. c) result text.new (starts_at jobs machines text.old) }
{
    let stated = next_stated(text, b"makespan")?;
    let rows = next_start_rows(alloc, text, jobs, machines)?;
    Ok(Claimed {
        stated,
        plan: Starts { rows },
    })
}

/// The shop and the start times of its operations that the text spells: the lines of the shop, as `read_shop`
/// reads them, a line `makespan C`, and a line for each job with a start time for each step.
///
/// C is 0 to 4,294,967,295, and a start time is 0 to 67,108,863; else it is out of range. A text that is no such
/// plan is refused with its first fault: the number of the line, and the cause. Linear in the text, which is not
/// copied; each row is reserved once.
#[tactic(auto, unfolding(crate::specs::Plans::shop_plan_of))]
pub fn read_plan_shop(alloc: Global, bytes: &[u8]) -> Result<(Jobs, Claimed<Starts>), ReadRefusal>
    // Which shop and which start times, and which fault it is.
    ensures exact { Gives (λ r. r) result (shop_plan_of bytes.now) }
    // What is read is spelled so.
    ensures spelled { IfOk result (λ r. IsShopPlanText bytes.now r.0 r.1) }
    // What is spelled so is read, unless memory runs out.
    ensures read { (s : JobShop) (c : Claimed (List (List ℕ))) → IsShopPlanText bytes.now s c
        → Gives (λ r. r) result (Ok (s, c)) }
{
    read_whole::<(Jobs, Claimed<Starts>)>(alloc, bytes)
}

impl FromText for (Jobs, Claimed<Starts>) {
    ghost reading = { both shop_at (λ s. starts_at (length s.rows) s.machines) };

    #[tactic(auto, unfolding(crate::specs::Several::both))]
    fn next(
        alloc: Global,
        text: &mut TextReader<'_>,
    ) -> Result<(Jobs, Claimed<Starts>), ReadRefusal> {
        let shop = next_shop(alloc, text)?;
        let jobs = shop.rows.len() as u64;
        let starts = next_starts(alloc, text, jobs, u64::from(shop.machines))?;
        Ok((shop, starts))
    }
}
