//! What start times cost.
ghost use Rattle.std.specs.Prelude.{ℕ, ◌≡◌, ◌≤◌};
ghost use Rattle.std.specs.List.{AllByRecursion};
ghost use Rattle.inst_text.specs.Limits.{max_total};
ghost use Rattle.inst_text.specs.Shop.{row_time};
ghost use Rattle.bb_shop.specs.Plans.{row_end, makespan};

use inst_text::{Jobs, Operation, Starts};

// The greatest end of operations that start at these times, and 0 of none. One pass.
fn row_end(row: &[Operation], times: &[u32]) -> u32
    requires times { row_time row.now ≤ max_total }
    requires starts { AllByRecursion (λ (t : ℕ). t ≤ max_total) times.now }
    ensures { result ≡ row_end row.now times.now }
{
    let mut end = 0;
    for (operation, start) in row.iter().zip(times) {
        end = end.max(*start + operation.time);
    }
    end
}

/// What these start times cost: the greatest end of an operation, at most 134,217,726. Operations without a
/// start time and start times without an operation add nothing. One pass.
pub fn makespan_of(jobs: &Jobs, starts: &Starts) -> u32
    ensures { result ≡ makespan jobs.now starts.now }
{
    let mut end = 0;
    for (row, times) in jobs.rows.iter().zip(starts.rows.iter()) {
        end = end.max(row_end(row.as_slice(), times.as_slice()));
    }
    end
}
