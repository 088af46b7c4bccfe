//! Making a job shop.

ghost use Rattle.std.specs.Prelude.{◌≡◌, ◌≤◌, ◌<◌, ◌+◌, ◌*◌, IfOk, map, ℕ};
ghost use Rattle.inst_text.specs.Limits.{max_made_shop};
ghost use Rattle.inst_text.specs.Generator.{state_after, drawn, next_state, made_row, made_shop};

use crate::limits::MAX_MADE_TIME;
use crate::making::generator::Generator;
use crate::shop::{Jobs, Operation};
use pq_io::NoMemory;
use std::alloc::Global;

// A job of so many operations, on the machines from a drawn one on.
fn next_row(alloc: Global, generator: &mut Generator, size: u32) -> Result<Vec<Operation>, NoMemory>
    requires some { 1 ≤ size }
    requires few { size ≤ max_made_shop }
    ensures row { IfOk result (λ row. (seed n : ℕ) → generator.old.state ≡ state_after seed n
        → (row.items ≡ made_row seed size n) × (generator.new.state ≡ state_after seed (n + (size + 1)))) }
{
    let first = generator.draw(size);
    let mut row = Vec::with_capacity(alloc, size as usize)?;
    for step in 0..size {
        let machine = (first + step) % size;
        let time = 1 + generator.draw(MAX_MADE_TIME);
        row.push(Operation { machine, time })?;
    }
    Ok(row)
}

/// The shop of so many jobs and machines that belongs to the seed: a job begins at a machine that is drawn, and
/// needs each machine once, one after the other; its times are drawn from 1 to 20.
///
/// `NoMemory` comes where there is none for the operations. Linear in their number.
pub fn make_shop(alloc: Global, seed: u32, size: u32) -> Result<Jobs, NoMemory>
    requires some { 1 ≤ size }
    requires few { size ≤ max_made_shop }
    ensures { IfOk result (λ s. s ≡ made_shop seed size) }
{
    let mut generator = Generator::new(seed);
    let mut rows = Vec::with_capacity(alloc, size as usize)?;
    for _ in 0..size {
        rows.push(next_row(alloc, &mut generator, size)?)?;
    }
    Ok(Jobs {
        machines: size,
        rows,
    })
}
