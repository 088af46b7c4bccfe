//! Dantzig's bound by sums over the order.

ghost use Rattle.std.specs.Prelude.{◌≡◌, ◌+◌, ◌<◌, ◌≤◌, drop, length, slice_index};
ghost use Rattle.std.specs.List.Sorted.{IsNonDecreasing};
ghost use Rattle.inst_text.specs.Limits.{max_knapsack_capacity, max_total};
ghost use Rattle.bb_knap.specs.Plans.{weight_of, value_of};
ghost use Rattle.bb_knap.specs.Branching.{dantzig};
ghost use Rattle.bb_knap.specs.Sums.{AreSums, weight_sum_limit};

use crate::order::numbered_item;
use inst_text::Item;

// The place of the first item from this one on that no longer fits: the last place whose sum is within the
// limit. Binary search, O(log n).
fn break_place(weights: &[u64], from: usize, limit: u64) -> usize
    requires rising { IsNonDecreasing weights.now }
    requires inside { from < length weights.now }
    requires fits { slice_index weights.now from ≤ limit }
    ensures from { from ≤ result }
    ensures inside { result < length weights.now }
    ensures fits { slice_index weights.now result ≤ limit }
    ensures breaks { result + 1 < length weights.now → limit < slice_index weights.now (result + 1) }
{
    from + weights[from + 1..].partition_point(|sum| *sum <= limit)
}

/// Dantzig's bound of the items from this place of the order on, with this room, by the sums of weights and of
/// values over the order. O(log n).
pub fn dantzig_from(
    items: &[Item],
    order: &[u32],
    weights: &[u64],
    values: &[u32],
    from: usize,
    room: u64,
) -> u32
    requires weights { AreSums (weight_of items.now) order.now weights.now }
    requires values { AreSums (value_of items.now) order.now values.now }
    requires light { weight_of items.now order.now ≤ weight_sum_limit }
    requires small { value_of items.now order.now ≤ max_total }
    requires from { from ≤ length order.now }
    requires room { room ≤ max_knapsack_capacity }
    ensures { result ≡ dantzig items.now room (drop from order.now) }
{
    let limit = weights[from] + room;
    let place = break_place(weights, from, limit);
    let whole = values[place] - values[from];
    if place == order.len() {
        return whole;
    }
    let item = numbered_item(items, order[place]);
    let weight = u64::from(item.weight);
    let value = u64::from(item.value);
    whole + ((limit - weights[place]) * value / weight) as u32
}
