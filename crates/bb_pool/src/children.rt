//! The children of a branch that a search keeps: those whose bounds are below the best cost so far.

ghost use Rattle.std.specs.Prelude.{◌≡◌, ◌<◌, ◌≤◌, length, All, OnOk, IfOk};
ghost use Rattle.bb_problem.specs.Limits.{max_children};
ghost use Rattle.pq_words.specs.Limits.{key_limit};
ghost use Rattle.bb_pool.specs.Costs.{is_better};
ghost use Rattle.bb_pool.specs.Children.{AreBounds, better_keys};

use bb_problem::Problem;
use pq_io::NoMemory;

/// Whether the cost is below the best so far.
pub(crate) fn is_below(cost: u32, best: Option<u32>) -> bool
    ensures { result ≡ is_better cost best }
{
    best.is_none_or(|best| cost < best)
}

/// Writes the bounds of the nodes, in order, into a list whose memory is used again and again, and gives how many are
/// below the best cost: these nodes are kept.
pub(crate) fn bounds<P: Problem>(
    problem: &P,
    nodes: &[P::Node],
    best: Option<u32>,
    keys: &mut Vec<u32>,
) -> Result<usize, NoMemory>
    requires few { length nodes.now ≤ max_children }
    ensures bounds { OnOk result (AreBounds (P.meaning problem.now) nodes.now keys.new.items) }
    ensures small { OnOk result (All (λ key. key < key_limit) keys.new.items) }
    ensures kept { IfOk result (λ kept. kept ≡ length (better_keys best keys.new.items)) }
    ensures few { IfOk result (λ kept. kept ≤ max_children) }
{
    keys.clear();
    let mut kept = 0;
    for node in nodes {
        let key = problem.bound(node);
        kept += usize::from(is_below(key, best));
        keys.push(key)?;
    }
    Ok(kept)
}
