//! Writing a job shop, and start times of its operations.

ghost use Rattle.std.specs.Prelude.{◌≡◌, ◌++◌, ◌∷◌, [], map, IfOk, OnOk, Ok};
ghost use Rattle.std.specs.Fmt.{decimal};
ghost use Rattle.pq_io.specs.Writing.{words_text};
ghost use Rattle.inst_text.specs.Knapsack.{two_words};
ghost use Rattle.inst_text.specs.Shop.{row_words, shop_of, shop_text, starts_text};

use crate::numbers::write_two;
use crate::shop::{Jobs, Operation, Starts};
use pq_io::{NoMemory, write_number, write_numbers};
use std::alloc::Global;

// Appends an operation: its machine and its time.
fn write_operation(text: &mut Vec<u8>, operation: &Operation) -> Result<(), NoMemory>
    ensures { OnOk result (text.new.items
        ≡ text.old.items ++ words_text (two_words operation.now.machine operation.now.time)) }
{
    write_two(
        text,
        u64::from(operation.machine),
        u64::from(operation.time),
    )
}

// Appends a job's operations, with a blank between two.
fn write_operations(text: &mut Vec<u8>, row: &[Operation]) -> Result<(), NoMemory>
    ensures { OnOk result (text.new.items ≡ text.old.items ++ words_text (row_words row.now)) }
{
    let Some((first, others)) = row.split_first() else {
        return Ok(());
    };
    write_operation(text, first)?;
    for operation in others {
        text.push(b' ')?;
        write_operation(text, operation)?;
    }
    Ok(())
}

// Appends the line of a job.
fn write_job(text: &mut Vec<u8>, row: &[Operation]) -> Result<(), NoMemory>
    ensures { OnOk result (text.new.items ≡ text.old.items ++ (words_text (row_words row.now) ++ 10 ∷ [])) }
{
    write_operations(text, row)?;
    text.push(b'\n')?;
    Ok(())
}

/// The text of a job shop: the line `n m`, and a line of pairs `machine time` for each job.
///
/// `NoMemory` comes where there is none for the text, in which it is linear.
pub fn write_shop(alloc: Global, jobs: &Jobs) -> Result<Vec<u8>, NoMemory>
    ensures written { IfOk result (λ text. text.items ≡ shop_text jobs.now) }
    // What is written reads back.
    ensures read { IfOk result (λ text. shop_of text.items ≡ Ok jobs.now) }
{
    let mut text = Vec::new(alloc);
    write_two(&mut text, jobs.rows.len() as u64, u64::from(jobs.machines))?;
    text.push(b'\n')?;
    for row in &jobs.rows {
        write_job(&mut text, row)?;
    }
    Ok(text)
}

// Appends a job's start times, with a blank between two.
fn write_times(text: &mut Vec<u8>, row: &[u32]) -> Result<(), NoMemory>
    ensures { OnOk result (text.new.items ≡ text.old.items ++ words_text (map decimal row.now)) }
{
    let Some((first, others)) = row.split_first() else {
        return Ok(());
    };
    write_number(text, u64::from(*first))?;
    write_numbers(text, others)?;
    Ok(())
}

// Appends the line of a job's start times.
fn write_row(text: &mut Vec<u8>, row: &[u32]) -> Result<(), NoMemory>
    ensures { OnOk result (text.new.items ≡ text.old.items ++ (words_text (map decimal row.now) ++ 10 ∷ [])) }
{
    write_times(text, row)?;
    text.push(b'\n')?;
    Ok(())
}

/// The text of start times and their makespan: the line `makespan C`, and a line for each job with the start
/// times of its operations, one blank between two.
///
/// `NoMemory` comes where there is none for the text, in which it is linear.
pub fn write_starts(alloc: Global, makespan: u32, starts: &Starts) -> Result<Vec<u8>, NoMemory>
    ensures { IfOk result (λ text. text.items ≡ starts_text makespan starts.now) }
{
    let mut text = Vec::from_slice(alloc, b"makespan ")?;
    write_number(&mut text, u64::from(makespan))?;
    text.push(b'\n')?;
    for row in &starts.rows {
        write_row(&mut text, row)?;
    }
    Ok(text)
}
