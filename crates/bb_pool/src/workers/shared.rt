//! What the workers of a search share, and one worker.

ghost use Rattle.std.specs.Prelude.{◌≡◌, ◌≤◌};
ghost use Rattle.bb_shared.specs.Stores.{nodes_of};
ghost use Rattle.bb_pool.specs.Limits.{max_nodes};

use crate::found::Found;
use bb_shared::{Control, ControlSeat, Store, StoreSeat};

/// What the workers of a search share: the queue of the open nodes' entries, the store of the nodes, the control words,
/// and the node limit.
#[derive(Drop)]
pub(crate) struct Shared<Q, N> {
    pub(crate) queue: Q,
    pub(crate) store: Store<N>,
    pub(crate) control: Control,
    pub(crate) nodes: u32,
    pub(crate) ghost limit: { (nodes_of store ≡ nodes) × (nodes ≤ max_nodes) },
}

/// One worker, or several that were joined into one: the queue's pass, the seats of the store and of the control, the
/// bounds of the branch at hand, the best plan so far, and how many calls the pass has made.
#[derive(Drop)]
pub(crate) struct Worker<A, N, L> {
    pub(crate) pass: A,
    pub(crate) seat: StoreSeat<N>,
    pub(crate) control: ControlSeat,
    pub(crate) keys: Vec<u32>,
    pub(crate) found: Option<Found<L>>,
    pub(crate) made: u32,
}
