//! The plain queue in use.

ghost use Rattle.std.specs.Prelude.{◌≡◌, ◌≤◌, IfOk};
ghost use Rattle.pq_model.specs.Limits.{max_capacity};
ghost use Rattle.pq_model.specs.Passes.{fresh};

use pq_api::{Open, PlainPass, PlainQueue, SharedQueue};
use pq_io::NoMemory;
use std::alloc::Global;

/// The one pass of a fresh plain queue.
pub fn plain_pass(alloc: Global, capacity: u32) -> Result<PlainPass, NoMemory>
    requires { (1 ≤ capacity) × (capacity ≤ max_capacity) }
    ensures fresh { IfOk result (λ p. p.known ≡ fresh 1) }
    ensures capacity { IfOk result (λ p. p.capacity ≡ capacity) }
{
    let (_queue, mut passes) = PlainQueue::open(alloc, capacity, 1, Open)?;
    Ok(passes.remove(0))
}
