//! The order in which a search decides on the items.

ghost use Rattle.std.specs.Prelude.{◌≡◌, ◌≤◌, length, IfOk};
ghost use Rattle.std.specs.Ordering.{is_lt};
ghost use Rattle.inst_text.specs.Limits.{max_items};
ghost use Rattle.bb_knap.specs.Plans.{item_at};
ghost use Rattle.bb_knap.specs.Order.{is_denser, goes_before, order_of};

use inst_text::Item;
use pq_io::NoMemory;
use std::alloc::Global;
use std::cmp::Ordering;

/// The item with this number; past the last one, an item of no weight and no value.
pub fn numbered_item(items: &[Item], number: u32) -> Item
    ensures { result ≡ item_at items.now number }
{
    let none = Item {
        weight: 0,
        value: 0,
    };
    items.get(number as usize).copied().unwrap_or(none)
}

// Tells whether the first item is worth more for its weight, by products.
#[tactic(auto, unfolding(crate::specs::Order::is_denser))]
fn worth_more(first: Item, second: Item) -> bool
    ensures { result ≡ is_denser first second }
{
    if first.weight == 0 {
        return 0 < second.weight;
    }
    u64::from(second.value) * u64::from(first.weight)
        < u64::from(first.value) * u64::from(second.weight)
}

// Tells whether the item with the first number stands before the item with the second.
#[tactic(auto, unfolding(crate::specs::Order::goes_before))]
fn stands_before(items: &[Item], first: u32, second: u32) -> bool
    ensures { result ≡ goes_before items.now first second }
{
    let one = numbered_item(items, first);
    let other = numbered_item(items, second);
    worth_more(one, other) || (!worth_more(other, one) && first < second)
}

// How two numbers stand to each other in the order.
fn compared(items: &[Item], first: u32, second: u32) -> Ordering
    ensures { is_lt result ≡ goes_before items.now first second }
{
    if stands_before(items, first, second) {
        Ordering::Less
    } else {
        Ordering::Greater
    }
}

/// The numbers of the items in the order in which a search decides on them. O(n log n).
pub fn item_order(alloc: Global, items: &[Item]) -> Result<Vec<u32>, NoMemory>
    requires { length items.now ≤ max_items }
    ensures { IfOk result (λ order. order.items ≡ order_of items.now) }
{
    let mut order = Vec::new(alloc);
    for number in 0..items.len() as u32 {
        order.push(number)?;
    }
    order.sort_by(|j, k| compared(items, *j, *k))?;
    Ok(order)
}
