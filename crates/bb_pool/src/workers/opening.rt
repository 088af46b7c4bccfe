//! What the workers share and the workers themselves, and the first call on the queue: the root, by the first worker.

ghost use Rattle.std.specs.Prelude.{◌≡◌, ◌+◌, ◌≤◌, [], length, IfOk, IfErr, IsTrue, replicate};
ghost use Rattle.pq_model.specs.Passes.{Knows, fresh};
ghost use Rattle.pq_api.specs.Answers.{EachAt};
ghost use Rattle.bb_shared.specs.Stores.{new_store_seat};
ghost use Rattle.bb_shared.specs.Controls.{new_control_seat};
ghost use Rattle.bb_pool.specs.Limits.{max_nodes, idle_calls};
ghost use Rattle.bb_pool.specs.Working.{IsRooted};
ghost use Rattle.bb_pool.specs.Origins.{HasOriginsFrom};
ghost use Rattle.bb_pool.specs.Together.{doing, IsOneOf, IsNew, HasBegun, IsTogether};
ghost use Rattle.bb_pool.specs.Runs.{HasRun, HasStopped};

use super::shared::{Shared, Worker};
use super::turn::put_child;
use crate::child::Child;
use bb_problem::Problem;
use bb_shared::{Control, ControlSeat, Drawn, Stop, Store, StoreSeat};
use pq_api::BoundedQueue;
use pq_io::NoMemory;
use std::alloc::Global;
use std::sync::Wait;

/// Opens what the workers of a search share, and makes a worker for each pass of the queue. All memory that the store,
/// the control and the workers need is taken here. Refused for want of it, queue and passes are dropped.
pub(crate) fn open<Q: BoundedQueue, N: Send + Drop, L: Drop>(
    alloc: Global,
    queue: Q,
    passes: Vec<Q::Pass>,
    nodes: u32,
) -> Result<(Shared<Q, N>, Vec<Worker<Q::Pass, N, L>>), NoMemory>
    requires count { length passes.items ≡ Q.seats_of queue }
    requires own { EachAt (λ k p. Q.belongs queue p × (Q.known p ≡ fresh (k + 1))) passes.items }
    requires nodes { (1 ≤ nodes) × (nodes ≤ max_nodes) }
    ensures shared { IfOk result (λ r. (r.0.queue ≡ queue) × (r.0.nodes ≡ nodes)) }
    ensures count { IfOk result (λ r. length r.1.items ≡ Q.seats_of queue) }
    ensures new { IfOk result (λ r. EachAt (λ k w. IsOneOf Q.belongs r.0 w
        × IsNew (Q.seats_of queue) (k + 1) (doing Q.known w)) r.1.items) }
{
    let count = passes.len() as u32;
    let (store, seats) = Store::open(alloc, nodes, count)?;
    let (control, controls) = Control::open(alloc, count)?;
    let shared = Shared {
        queue,
        store,
        control,
        nodes,
    };
    let workers = workers_of(alloc, &shared, passes, seats, controls)?;
    Ok((shared, workers))
}

// A worker for each pass, with a seat of the store and one of the control.
fn workers_of<Q: BoundedQueue, N: Send + Drop, L: Drop>(
    alloc: Global,
    shared: &Shared<Q, N>,
    passes: Vec<Q::Pass>,
    seats: Vec<StoreSeat<N>>,
    controls: Vec<ControlSeat>,
) -> Result<Vec<Worker<Q::Pass, N, L>>, NoMemory>
    requires own { EachAt (λ k p. Q.belongs shared.now.queue p × (Q.known p ≡ fresh (k + 1))) passes.items }
    requires seats { let count = length passes.items in
        seats.items ≡ replicate count (new_store_seat shared.now.store count) }
    requires controls { let count = length passes.items in
        controls.items ≡ replicate count (new_control_seat shared.now.control count) }
    ensures count { IfOk result (λ workers. length workers.items ≡ length passes.items) }
    ensures new { IfOk result (λ workers. EachAt (λ k w. IsOneOf Q.belongs shared.now w
        × IsNew (length passes.items) (k + 1) (doing Q.known w)) workers.items) }
{
    let _shared = shared;
    let mut workers = Vec::with_capacity(alloc, passes.len())?;
    let mut seats = seats.into_iter();
    let mut controls = controls.into_iter();
    for pass in passes {
        let Some(seat) = seats.next() else {
            unreachable!()
        };
        let Some(control) = controls.next() else {
            unreachable!()
        };
        workers.push(Worker {
            pass,
            seat,
            control,
            keys: Vec::new(alloc),
            found: None,
            made: 0,
        })?;
    }
    Ok(workers)
}

/// Puts the root into the store and inserts an entry for it, by the first worker. Says whether there was room; where
/// there was not, the stop is set.
pub(crate) fn begin<R: Wait + Sync, Q: BoundedQueue, P: Problem>(
    rt: &R,
    problem: &P,
    shared: &Shared<Q, P::Node>,
    worker: &mut Worker<Q::Pass, P::Node, P::Plan>,
    root: P::Node,
) -> bool
    requires own { IsOneOf Q.belongs shared.now worker.old }
    requires begun { HasBegun (P.meaning problem.now) shared.now.nodes (Q.seats_of shared.now.queue)
        (Q.capacity_of shared.now.queue) 1 (doing Q.known worker.old) }
    requires root { (P.meaning problem.now).stands root [] }
    ensures own { IsOneOf Q.belongs shared.now worker.new }
    ensures none { IsTrue result → worker.new.control.kept.stops ≡ [] }
    ensures begun { IsTrue result → IsTogether (P.meaning problem.now) shared.now.nodes
        (Q.seats_of shared.now.queue) (Q.capacity_of shared.now.queue) idle_calls 1 1 (doing Q.known worker.new) }
    ensures together { IsTogether (P.meaning problem.now) shared.now.nodes (Q.seats_of shared.now.queue)
        (Q.capacity_of shared.now.queue) (idle_calls + 1) 1 1 (doing Q.known worker.new) }
{
    match insert_root(rt, problem, shared, worker, root) {
        Ok(()) => true,
        Err(stop) => {
            shared.control.stop(&mut worker.control, stop);
            false
        }
    }
}

// Puts the root under the number that is drawn first, and inserts an entry for it.
fn insert_root<R: Wait + Sync, Q: BoundedQueue, P: Problem>(
    rt: &R,
    problem: &P,
    shared: &Shared<Q, P::Node>,
    worker: &mut Worker<Q::Pass, P::Node, P::Plan>,
    root: P::Node,
) -> Result<(), Stop>
    requires own { IsOneOf Q.belongs shared.now worker.old }
    requires begun { HasBegun (P.meaning problem.now) shared.now.nodes (Q.seats_of shared.now.queue)
        (Q.capacity_of shared.now.queue) 1 (doing Q.known worker.old) }
    requires root { (P.meaning problem.now).stands root [] }
    ensures own { IsOneOf Q.belongs shared.now worker.new }
    ensures knows { Knows (Q.seats_of shared.now.queue) (Q.capacity_of shared.now.queue) (Q.known worker.new.pass) }
    ensures rooted { IfOk result (λ _. HasRun (P.meaning problem.now) shared.now.nodes idle_calls
        (doing Q.known worker.old) (doing Q.known worker.new)
        × IsRooted (P.meaning problem.now) (Q.known worker.new.pass) worker.new.seat.kept.puts) }
    ensures stopped { IfErr result (HasStopped shared.now.nodes (doing Q.known worker.old) (doing Q.known worker.new)) }
    ensures traced { HasOriginsFrom (P.meaning problem.now) 1 worker.new.seat.kept }
{
    let key = problem.bound(&root);
    match shared.store.draw(&mut worker.seat, 1, shared.nodes) {
        Drawn::First(first) => put_child(rt, shared, worker, Child { key, node: root }, first),
        Drawn::Over { asked } => Err(Stop::NodeLimit { asked }),
    }
}
