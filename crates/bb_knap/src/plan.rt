//! The choice that decisions take.

ghost use Rattle.std.specs.Prelude.{◌≡◌, ◌≤◌, length, IfOk};
ghost use Rattle.inst_text.specs.Knapsack.{IsInstance};
ghost use Rattle.bb_knap.specs.Branching.{IsPlanOf};

use crate::knapsack::Knapsack;
use crate::node::KnapNode;
use inst_text::Choice;
use pq_io::NoMemory;
use std::alloc::Global;

/// The choice of the items that a node takes, which decides on all. O(n log n).
pub fn plan(alloc: Global, knapsack: &Knapsack, node: &KnapNode) -> Result<Choice, NoMemory>
    requires limits { IsInstance knapsack.now }
    requires decisions { length knapsack.now.items ≤ length node.now.decisions }
    ensures { IfOk result (λ choice. IsPlanOf knapsack.now node.now.decisions choice) }
{
    let mut numbers = Vec::new(alloc);
    for (place, number) in knapsack.order().iter().enumerate() {
        if node.takes(place) {
            numbers.push(*number)?;
        }
    }
    numbers.sort()?;
    Ok(Choice { numbers })
}
