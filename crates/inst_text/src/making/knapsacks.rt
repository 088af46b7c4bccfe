//! Making a knapsack.

ghost use Rattle.std.specs.Prelude.{◌≡◌, ◌≤◌, IfOk};
ghost use Rattle.inst_text.specs.Limits.{max_items, max_made_number};
ghost use Rattle.inst_text.specs.Generator.{next_state, item_from, made_knapsack};

use crate::knapsack::{Item, Items};
use crate::limits::MAX_MADE_NUMBER;
use crate::making::generator::Generator;
use pq_io::NoMemory;
use std::alloc::Global;

// An item whose weight and value are drawn.
fn next_item(generator: &mut Generator) -> Item
    ensures item { result ≡ item_from generator.old.state }
    ensures weight { result.weight ≤ max_made_number }
    ensures state { generator.new.state ≡ next_state (next_state generator.old.state) }
{
    let weight = 1 + generator.draw(MAX_MADE_NUMBER);
    let value = 1 + generator.draw(MAX_MADE_NUMBER);
    Item { weight, value }
}

/// The knapsack of so many items that belongs to the seed: each weight and each value is drawn from 1 to 100,
/// and the capacity is half of what all items weigh, rounded down.
///
/// `NoMemory` comes where there is none for the items. Linear in their number.
pub fn make_knapsack(alloc: Global, seed: u32, size: u32) -> Result<Items, NoMemory>
    requires { size ≤ max_items }
    ensures { IfOk result (λ i. i ≡ made_knapsack seed size) }
{
    let mut generator = Generator::new(seed);
    let mut items = Vec::with_capacity(alloc, size as usize)?;
    let mut weight = 0;
    for _ in 0..size {
        let item = next_item(&mut generator);
        weight += u64::from(item.weight);
        items.push(item)?;
    }
    Ok(Items {
        capacity: weight / 2,
        items,
    })
}
