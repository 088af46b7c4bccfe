//! The knapsack problem: its instance, and what is kept beside it.

ghost use Rattle.std.specs.Prelude.{◌≡◌, ◌-◌, ◌≤◌, drop, length, IfOk};
ghost use Rattle.inst_text.specs.Limits.{max_knapsack_capacity};
ghost use Rattle.inst_text.specs.Knapsack.{IsInstance, total_value};
ghost use Rattle.bb_knap.specs.Plans.{IsChoiceOf, weight_of, value_of, cost_of};
ghost use Rattle.bb_knap.specs.Verdicts.{IsVerdict};
ghost use Rattle.bb_knap.specs.Order.{order_of};
ghost use Rattle.bb_knap.specs.Branching.{dantzig, root_bound};

use crate::dantzig::dantzig_from;
use crate::order::{item_order, numbered_item};
use crate::sums::{Sums, sums_over};
use crate::verdict::KnapVerdict;
use inst_text::{Choice, Item, Items};
use pq_io::NoMemory;
use std::alloc::Global;
use std::marker::Model;

/// The 0/1 knapsack problem of an instance: which of its items to take, so that they fit and are worth most.
///
/// Beside the instance it keeps the order in which a search decides on the items, and the sums of their weights
/// and values over that order.
#[derive(Debug, Drop)]
pub struct Knapsack {
    items: Items,
    order: Vec<u32>,
    sums: Sums,
}

// What some items weigh and are worth together.
#[derive(Clone, Copy)]
struct Load {
    weight: u64,
    value: u32,
}

impl Model for Knapsack {
    ghost use Rattle.inst_text.specs.Knapsack.{Instance};
    ghost use Rattle.bb_knap.specs.OrderAndSums.{IsOrderAndSums};

    ghost Value = { Instance };

    ghost view = { λ k. k.items };

    ghost invariant = { λ k. IsOrderAndSums k.items k.order.items k.sums.weights.items k.sums.values.items };
}

impl Knapsack {
    /// The problem of this instance. It sorts the items once: O(n log n).
    pub fn new(alloc: Global, items: Items) -> Result<Knapsack, NoMemory>
        ensures { IfOk result (λ k. k ≡ items) }
    {
        let order = item_order(alloc, items.items.as_slice())?;
        let sums = sums_over(alloc, &items, order.as_slice())?;
        Ok(Knapsack { items, order, sums })
    }

    /// The greatest weight that a feasible choice may have, at most 1,000,000,000,000. Constant time.
    pub fn capacity(&self) -> u64
        ensures capacity { result ≡ self.now.capacity }
        ensures within_limits { IsInstance self.now }
    {
        self.items.capacity
    }

    /// The items, numbered from 0 as they stand here. There are at most 1,024. Constant time.
    pub fn items(&self) -> &[Item]
        ensures items { result.now ≡ self.now.items }
        ensures within_limits { IsInstance self.now }
    {
        self.items.items.as_slice()
    }

    /// The numbers of the items in the order in which a search decides on them: those without weight first, then
    /// the others by falling value for their weight; equal ones by their numbers. Constant time.
    pub fn order(&self) -> &[u32]
        ensures { result.now ≡ order_of self.now.items }
    {
        self.order.as_slice()
    }

    /// The sum of the values of all items, at most 67,108,863. Constant time.
    pub fn total_value(&self) -> u32
        ensures { result ≡ total_value self.now.items }
    {
        let order = self.order.as_slice();
        let values = self.sums.values.as_slice();
        values[order.len()]
    }

    /// The sum of the values of the chosen items, at most 67,108,863. One pass over the choice.
    pub fn value_of(&self, choice: &Choice) -> u32
        requires { IsChoiceOf self.now choice.now }
        ensures { result ≡ value_of self.now.items choice.now }
    {
        self.value_within(choice)
    }

    /// The same where the choice may have numbers that no item has, which add nothing.
    pub(crate) fn value_within(&self, choice: &Choice) -> u32
        ensures value { result ≡ value_of self.now.items choice.now }
        ensures at_most { result ≤ total_value self.now.items }
    {
        self.load_of(choice).value
    }

    /// The verdict on the choice and the value that is stated for it. It takes no memory. One pass over the choice.
    pub fn judge(&self, choice: &Choice, stated: u32) -> KnapVerdict
        requires { IsChoiceOf self.now choice.now }
        ensures { IsVerdict self.now choice.now stated result }
    {
        let load = self.load_of(choice);
        if self.capacity() < load.weight {
            return KnapVerdict::BadWeight(load.weight);
        }
        if load.value != stated {
            return KnapVerdict::BadValue(load.value);
        }
        KnapVerdict::Feasible
    }

    // What the chosen items weigh and are worth. Numbers that no item has add nothing.
    fn load_of(&self, choice: &Choice) -> Load
        ensures weight { result.weight ≡ weight_of self.now.items choice.now }
        ensures value { result.value ≡ value_of self.now.items choice.now }
        ensures at_most { result.value ≤ total_value self.now.items }
    {
        let items = self.items();
        let mut weight = 0;
        let mut value = 0;
        for number in &choice.numbers {
            let item = numbered_item(items, *number);
            weight += u64::from(item.weight);
            value += item.value;
        }
        Load { weight, value }
    }

    /// Dantzig's bound of all items with the whole capacity, at most 67,108,863: no feasible choice is worth
    /// more (G. B. Dantzig, Discrete-variable extremum problems, 1957). O(log n).
    pub fn root_bound(&self) -> u32
        ensures { result ≡ root_bound self.now }
    {
        self.dantzig(0, self.capacity())
    }

    /// The values of all items, but this one, and at most what the items from this place of the order on bring with
    /// this room. O(log n).
    #[inline(always)]
    pub(crate) fn bound_at(&self, from: usize, room: u64, value: u32) -> u32
        requires from { from ≤ length self.now.items }
        requires room { room ≤ max_knapsack_capacity }
        ensures { result ≡ total_value self.now.items - value
            - dantzig self.now.items room (drop from (order_of self.now.items)) }
    {
        self.total_value()
            .saturating_sub(value)
            .saturating_sub(self.dantzig(from, room))
    }

    /// Dantzig's bound of the items from this place of the order on, with this room: whole values while the items
    /// fit, and of the first that does not fit the part that fills the room, rounded down. O(log n).
    pub(crate) fn dantzig(&self, from: usize, room: u64) -> u32
        requires from { from ≤ length self.now.items }
        requires room { room ≤ max_knapsack_capacity }
        ensures { result ≡ dantzig self.now.items room (drop from (order_of self.now.items)) }
    {
        let items = self.items();
        let order = self.order.as_slice();
        let weights = self.sums.weights.as_slice();
        let values = self.sums.values.as_slice();
        dantzig_from(items, order, weights, values, from, room)
    }
}
