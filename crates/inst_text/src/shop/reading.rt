//! Reading a job shop.

ghost use Rattle.std.specs.Prelude.{◌≡◌, ◌-◌, ◌≤◌, ◌^◌, ◌<◌, map, IfOk, Ok};
ghost use Rattle.pq_io.specs.Reading.{Leaves, Gives, GivesAndLeaves, on_line, line_at};
ghost use Rattle.inst_text.specs.Limits.{max_total};
ghost use Rattle.inst_text.specs.Shop.{JobShop, IsMachineCount, IsShopText, row_time, shop_head_of, operation_at};
ghost use Rattle.inst_text.specs.Shop.{line_operations_at, row_of, rows_at, shop_at, shop_of};

use crate::limits::{MAX_JOBS, MAX_MACHINES, MAX_OPERATIONS, MAX_TOTAL};
use crate::shop::{Jobs, Operation};
use crate::whole::{FromText, read_whole};
use pq_io::{BadInput, Cause, ReadRefusal, TextReader, WordReader, on_line};
use std::alloc::Global;

// The number of jobs, and the number of machines.
#[tactic(auto, unfolding(crate::specs::Shop::shop_head_of))]
fn head(words: &mut WordReader<'_>) -> Result<(u64, u64), Cause>
    ensures { result ≡ shop_head_of words.old.words }
{
    let jobs = words.number(1, u64::from(MAX_JOBS))?;
    let machines = words.number(1, u64::from(MAX_MACHINES))?;
    if jobs * machines > u64::from(MAX_OPERATIONS) {
        return Err(Cause::Range);
    }
    words.finish()?;
    Ok((jobs, machines))
}

// Takes the first line.
#[tactic(auto, unfolding(pq_io::specs::Reading::line_at))]
fn next_head(text: &mut TextReader<'_>) -> Result<(u64, u64), BadInput>
    ensures { Leaves (λ h. h) result text.new (line_at shop_head_of text.old) }
{
    let mut words = text.next_line()?;
    let line = words.line();
    on_line(line, head(&mut words))
}

// The operation on one of so many machines, whose time is at most `room`.
#[tactic(auto, unfolding(crate::specs::Shop::operation_at))]
fn operation(words: &mut WordReader<'_>, machines: u64, room: u64) -> Result<Operation, Cause>
    requires machines { IsMachineCount machines }
    requires room { room < 2 ^ 32 }
    ensures exact { Leaves (λ o. o) result words.new.words (operation_at machines room words.old.words) }
    ensures fits { IfOk result (λ o. o.time ≤ room) }
    ensures line { words.new.number ≡ words.old.number }
{
    let machine = words.number(0, machines - 1)?;
    let time = words.number(0, room)?;
    Ok(Operation {
        machine: machine as u32,
        time: time as u32,
    })
}

// Takes an operation, and tells the line where it is faulty.
fn next_operation(
    words: &mut WordReader<'_>,
    machines: u64,
    room: u64,
) -> Result<Operation, BadInput>
    requires machines { IsMachineCount machines }
    requires room { room < 2 ^ 32 }
    ensures exact { Leaves (λ o. o) result words.new.words
        (on_line words.old.number (operation_at machines room words.old.words)) }
    ensures fits { IfOk result (λ o. o.time ≤ room) }
    ensures line { words.new.number ≡ words.old.number }
{
    let line = words.line();
    on_line(line, operation(words, machines, room))
}

// Takes as many operations as there are machines. The times come out of `room`.
fn next_operations(
    alloc: Global,
    words: &mut WordReader<'_>,
    machines: u64,
    room: &mut u64,
) -> Result<Vec<Operation>, ReadRefusal>
    requires machines { IsMachineCount machines }
    requires room { room.old < 2 ^ 32 }
    ensures exact { GivesAndLeaves (λ row. row.items) result words.new.words
        (line_operations_at words.old.number machines machines room.old words.old.words) }
    ensures line { words.new.number ≡ words.old.number }
    ensures left { IfOk result (λ row. room.new ≡ room.old - row_time row.items) }
{
    let mut row = Vec::with_capacity(alloc, machines as usize)?;
    for _ in 0..machines {
        let operation = next_operation(words, machines, *room)?;
        *room -= u64::from(operation.time);
        row.push(operation)?;
    }
    Ok(row)
}

// Takes the line of a job.
#[tactic(auto, unfolding(pq_io::specs::Reading::line_at, crate::specs::Shop::row_of))]
fn next_row(
    alloc: Global,
    text: &mut TextReader<'_>,
    machines: u64,
    room: &mut u64,
) -> Result<Vec<Operation>, ReadRefusal>
    requires machines { IsMachineCount machines }
    requires room { room.old < 2 ^ 32 }
    ensures exact { GivesAndLeaves (λ row. row.items) result text.new (line_at (row_of machines room.old) text.old) }
    ensures left { IfOk result (λ row. room.new ≡ room.old - row_time row.items) }
{
    let mut words = text.next_line()?;
    let line = words.line();
    let row = next_operations(alloc, &mut words, machines, room)?;
    on_line(line, words.finish())?;
    Ok(row)
}

// Takes the lines of this many jobs.
fn next_rows(
    alloc: Global,
    text: &mut TextReader<'_>,
    jobs: u64,
    machines: u64,
) -> Result<Vec<Vec<Operation>>, ReadRefusal>
    requires { IsMachineCount machines }
    ensures { GivesAndLeaves (λ rows. map (λ row. row.items) rows.items) result text.new
        (rows_at jobs machines max_total text.old) }
{
    let mut rows = Vec::with_capacity(alloc, jobs as usize)?;
    let mut room = u64::from(MAX_TOTAL);
    for _ in 0..jobs {
        let row = next_row(alloc, text, machines, &mut room)?;
        rows.push(row)?;
    }
    Ok(rows)
}

/// Takes the lines of a shop: `n m`, and a line for each job.
///
/// Refuses with the first fault, after which nothing is promised of the lines that are left.
#[tactic(auto, unfolding(crate::specs::Shop::shop_at))]
pub fn next_shop(alloc: Global, text: &mut TextReader<'_>) -> Result<Jobs, ReadRefusal>
    ensures { GivesAndLeaves (λ s. s) result text.new (shop_at text.old) }
{
    let (jobs, machines) = next_head(text)?;
    let rows = next_rows(alloc, text, jobs, machines)?;
    Ok(Jobs {
        machines: machines as u32,
        rows,
    })
}

/// The job shop that the text spells: a line `n m`, and then n lines of m pairs `machine time`.
///
/// n and m are 1 to 100, and n * m is at most 1,024; where it is above, m is out of range. A machine is 0 to
/// m - 1, a time is 0 to 67,108,863, and so is the sum of all times; the time that passes it is out of range. A
/// text that is no such shop is refused with its first fault: the number of the line, and the cause. Linear in
/// the text, which is not copied; each row is reserved once.
#[tactic(auto, unfolding(crate::specs::Shop::shop_of))]
pub fn read_shop(alloc: Global, bytes: &[u8]) -> Result<Jobs, ReadRefusal>
    // Which shop, and which fault it is.
    ensures exact { Gives (λ s. s) result (shop_of bytes.now) }
    // What is read is spelled so.
    ensures spelled { IfOk result (λ s. IsShopText bytes.now s) }
    // What is spelled so is read, unless memory runs out.
    ensures read { (s : JobShop) → IsShopText bytes.now s → Gives (λ j. j) result (Ok s) }
{
    read_whole::<Jobs>(alloc, bytes)
}

impl FromText for Jobs {
    ghost reading = { shop_at };

    fn next(alloc: Global, text: &mut TextReader<'_>) -> Result<Jobs, ReadRefusal> {
        next_shop(alloc, text)
    }
}
