//! How a search ends.

ghost use Rattle.std.specs.Prelude.{◌≡◌, IsSome};
ghost use Rattle.bb_pool.specs.Outcomes.{outcome_of};
ghost use Rattle.bb_pool.specs.Underway.{best_outcome};

use crate::found::Found;
use bb_shared::Stop;

/// How a search ended.
#[derive(Debug, Drop)]
pub enum Outcome<P> {
    /// A feasible plan with its cost; no feasible plan costs less.
    Best { plan: P, cost: u32 },
    /// More nodes were asked for than the limit allows: so many in all.
    NodeLimit { asked: u64, limit: u32 },
    /// The insert at this place of the queue's history found the queue full.
    Full { place: u32 },
    /// There was no memory for a node, for its children or for the store.
    NoMemory,
}

/// The outcome of a search that is over: its best plan.
pub(crate) fn of_best<P: Drop>(found: Option<Found<P>>) -> Outcome<P>
    requires { IsSome found }
    ensures { result ≡ best_outcome found }
{
    let Some(Found { plan, cost }) = found else {
        unreachable!()
    };
    Outcome::Best { plan, cost }
}

/// The outcome of a search that was stopped, under this node limit.
pub(crate) fn of_stop<P>(stop: Stop, limit: u32) -> Outcome<P>
    ensures { result ≡ outcome_of stop limit }
{
    match stop {
        Stop::NodeLimit { asked } => Outcome::NodeLimit { asked, limit },
        Stop::Full { place } => Outcome::Full { place },
        Stop::NoMemory => Outcome::NoMemory,
    }
}
