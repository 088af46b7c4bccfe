//! Sums of weights and of values over an order.

ghost use Rattle.std.specs.Prelude.{◌≡◌, IfOk};
ghost use Rattle.bb_knap.specs.Plans.{weight_of, value_of};
ghost use Rattle.bb_knap.specs.Order.{order_of};
ghost use Rattle.bb_knap.specs.Sums.{AreSums};

use crate::order::numbered_item;
use inst_text::Items;
use pq_io::NoMemory;
use std::alloc::Global;

/// At each k up to the number of items, what the first k of an order weigh and are worth together.
#[derive(Debug, Drop)]
pub struct Sums {
    pub weights: Vec<u64>,
    pub values: Vec<u32>,
}

/// The sums over this order, which has all items. One pass.
pub fn sums_over(alloc: Global, items: &Items, order: &[u32]) -> Result<Sums, NoMemory>
    requires { order.now ≡ order_of items.now.items }
    ensures weights { IfOk result (λ sums. AreSums (weight_of items.now.items) order.now sums.weights.items) }
    ensures values { IfOk result (λ sums. AreSums (value_of items.now.items) order.now sums.values.items) }
{
    let mut weight = 0;
    let mut value = 0;
    let mut weights = vec![in alloc; weight]?;
    let mut values = vec![in alloc; value]?;
    for number in order {
        let item = numbered_item(items.items.as_slice(), *number);
        weight += u64::from(item.weight);
        value += item.value;
        weights.push(weight)?;
        values.push(value)?;
    }
    Ok(Sums { weights, values })
}
