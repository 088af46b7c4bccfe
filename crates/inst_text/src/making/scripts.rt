//! Making a script.

ghost use Rattle.std.specs.Prelude.{◌≡◌, ◌≤◌, ◌<◌, ◌+◌, ◌*◌, IfOk, ℕ};
ghost use Rattle.pq_words.specs.Limits.{id_limit};
ghost use Rattle.inst_text.specs.Limits.{max_lanes, max_made_inserts};
ghost use Rattle.inst_text.specs.Generator.{state_after, made_lane, made_script};

use crate::making::generator::Generator;
use crate::script::Script;
use pq_io::NoMemory;
use pq_model::Act;
use pq_words::{Entry, KEY_LIMIT};
use std::alloc::Global;

// A lane of so many inserts, whose ids go on from `first`, and as many removals behind them.
fn next_lane(
    alloc: Global,
    generator: &mut Generator,
    first: u32,
    size: u32,
) -> Result<Vec<Act>, NoMemory>
    requires size { size ≤ max_made_inserts }
    requires ids { first + size ≤ id_limit }
    ensures { IfOk result (λ lane. (seed : ℕ) → generator.old.state ≡ state_after seed first
        → (lane.items ≡ made_lane seed size first) × (generator.new.state ≡ state_after seed (first + size))) }
{
    let mut lane = Vec::with_capacity(alloc, 2 * size as usize)?;
    for index in 0..size {
        lane.push(Act::Insert(Entry {
            key: generator.draw(KEY_LIMIT),
            id: first + index,
        }))?;
    }
    lane.resize(2 * size as usize, Act::Remove)?;
    Ok(lane)
}

/// The script of so many lanes that belongs to the seed: in each lane so many inserts, and then as many removals.
/// Keys are drawn from all keys, and ids go from 0 on through all lanes.
///
/// `NoMemory` comes where there is none for the commands. Linear in their number.
pub fn make_script(alloc: Global, seed: u32, lanes: u32, size: u32) -> Result<Script, NoMemory>
    requires some { 1 ≤ lanes }
    requires few { lanes ≤ max_lanes }
    requires size { size ≤ max_made_inserts }
    ensures { IfOk result (λ s. s ≡ made_script seed lanes size) }
{
    let mut generator = Generator::new(seed);
    let mut made = Vec::with_capacity(alloc, lanes as usize)?;
    for lane in 0..lanes {
        made.push(next_lane(alloc, &mut generator, lane * size, size)?)?;
    }
    Ok(Script { lanes: made })
}
