//! The search by several workers, from the passes of a queue to the outcome.

ghost use Rattle.std.specs.Prelude.{◌≡◌, ◌≢◌, ◌+◌, ◌≤◌, ◌<◌, [], length};
ghost use Rattle.pq_model.specs.Passes.{fresh};
ghost use Rattle.pq_api.specs.Answers.{EachAt};
ghost use Rattle.bb_pool.specs.Limits.{max_nodes};
ghost use Rattle.bb_pool.specs.Outcomes.{IsOutcome, IfNodeLimit};
ghost use Rattle.bb_pool.specs.Together.{doing, IsOneOf, IsNew};
ghost use Rattle.bb_pool.specs.Runs.{HasEnded};
ghost use Rattle.bb_pool.specs.SearchOutcomes.{IsSearchOutcome, IsFoundByAll};

use super::ending::{finish, join_all};
use super::opening::{begin, open};
use super::running::run_all;
use super::shared::{Shared, Worker};
use crate::alone::search_alone;
use crate::outcome::Outcome;
use bb_problem::Problem;
use pq_api::{BoundedQueue, Gate};
use std::alloc::Global;
use std::sync::Wait;
use std::thread::Threads;

/// Searches for a feasible plan of least cost, the node of least bound first, by a worker for each pass of a queue.
///
/// The passes have to be all passes of the queue, in the order of their numbers, and none may have made a call.
/// `nodes`, the node limit, is 1 to `MAX_NODES`.
///
/// The workers share the queue, a store of the open nodes by number, the best cost so far and the first stop. The
/// first of them puts the root. In a turn a worker removes the least entry whose key is below the best cost. The key
/// is a node's bound, the id its number, and the worker takes the node. Where the key is below the best cost still,
/// the node is expanded: a leaf's plan is kept where it is cheaper than the best, and of a branch the children whose
/// bounds are below the best cost get the next numbers, and are stored and inserted in order. A worker that finds no
/// such entry ends where a stop is set, or where no turn was open now and after its turn before, or once its pass has
/// made 2^24 calls. Then all are joined into one, which goes on alone until no such entry is left.
///
/// `Best` gives a feasible plan with its cost, and no feasible plan costs less. There are calls of all passes whose
/// legal history ends with a removal below this cost that found no such entry, and it leaves none with a lower key. Of
/// several passes these calls have the root's insert in them and account for each entry that was removed, up to this
/// plan, which is `found`. `NodeLimit` comes where a branch's children would pass the limit, before one of them is put;
/// the limit is then below the size of the tree, and no more nodes were asked for than this size, where it is below
/// 2^64. `Full` comes where an insert was answered so, at its place; the capacity is then below `nodes` and the number
/// of passes together. `NoMemory` comes where there was none for the root, the store, the workers, a node's expansion
/// or the bounds of its children. Of several stops the first is the answer. Queue, passes and the nodes still open are
/// dropped.
///
/// With one pass it takes the turns of `search_plain` and ends as that does, which is `one`.
///
/// The workers run on threads, one of them on the caller's; where a thread cannot be had, another runs its worker
/// too. A node costs one removal, one insert, one addition for all numbers of its children, two exchanges on its
/// slot, a bound and at most one expansion. The store, the control words and the workers take their memory before the
/// root is inserted, in time linear in `nodes`: eight bytes and a slot for each number up to `nodes`, where a slot
/// holds a node and not a box of it, and as much again until the store is made. That is about a tenth of a second for
/// `MAX_NODES` nodes of 40 bytes. After that only `expand` takes memory, and each worker for the bounds of one branch.
/// A worker that finds no entry pauses before it looks again, longer each time, until it gives way to other threads.
/// The gate is told each node that was taken, at `Point::WorkerNode`. Queue and gate may wait, and so may this call:
/// what is promised holds if it returns.
///
/// After A. H. Land and A. G. Doig, "An Automatic Method of Solving Discrete Programming Problems" (Econometrica,
/// 1960), and for several workers on one queue B. Gendron and T. G. Crainic, "Parallel Branch-and-Bound Algorithms:
/// Survey and Synthesis" (Operations Research, 1994).
pub fn search<R: Threads + Wait + Sync, Q: BoundedQueue, P: Problem, G: Gate>(
    rt: &R,
    alloc: Global,
    problem: &P,
    queue: Q,
    passes: Vec<Q::Pass>,
    nodes: u32,
    gate: &G,
) -> Outcome<P::Plan>
    requires passes { length passes.items ≡ Q.seats_of queue }
    requires own { EachAt (λ k p. Q.belongs queue p × (Q.known p ≡ fresh (k + 1))) passes.items }
    requires nodes { (1 ≤ nodes) × (nodes ≤ max_nodes) }
    ensures outcome { IsSearchOutcome (P.meaning problem.now) nodes (Q.capacity_of queue) (Q.seats_of queue) result }
    // Of several passes the calls have the root's insert in them, and lead to this plan.
    ensures found { Q.seats_of queue ≢ 1 →
        IsFoundByAll (P.meaning problem.now) (Q.seats_of queue) (Q.capacity_of queue) result }
    ensures one { Q.seats_of queue ≡ 1 → IsOutcome (P.meaning problem.now) nodes (Q.capacity_of queue) result }
    // A node limit of the tree's size is never too low.
    ensures below_size { IfNodeLimit result (λ asked limit. limit < (P.meaning problem.now).tree_size) }
{
    if passes.len() == 1 {
        let mut passes = passes;
        let pass = passes.remove(0);
        return search_alone(rt, alloc, problem, queue, pass, nodes, gate);
    }
    search_together(rt, alloc, problem, queue, passes, nodes, gate)
}

// The search by one worker for each pass.
fn search_together<R: Threads + Wait + Sync, Q: BoundedQueue, P: Problem, G: Gate>(
    rt: &R,
    alloc: Global,
    problem: &P,
    queue: Q,
    passes: Vec<Q::Pass>,
    nodes: u32,
    gate: &G,
) -> Outcome<P::Plan>
    requires passes { length passes.items ≡ Q.seats_of queue }
    requires own { EachAt (λ k p. Q.belongs queue p × (Q.known p ≡ fresh (k + 1))) passes.items }
    requires nodes { (1 ≤ nodes) × (nodes ≤ max_nodes) }
    ensures outcome { IsSearchOutcome (P.meaning problem.now) nodes (Q.capacity_of queue) (Q.seats_of queue) result }
    ensures found { IsFoundByAll (P.meaning problem.now) (Q.seats_of queue) (Q.capacity_of queue) result }
{
    let Ok(root) = problem.root(alloc) else {
        return Outcome::NoMemory;
    };
    let Ok((shared, workers)) = open(alloc, queue, passes, nodes) else {
        return Outcome::NoMemory;
    };
    work(rt, alloc, problem, &shared, gate, workers, root)
}

// The work of all workers, from the root to the outcome.
fn work<R: Threads + Wait + Sync, Q: BoundedQueue, P: Problem, G: Gate>(
    rt: &R,
    alloc: Global,
    problem: &P,
    shared: &Shared<Q, P::Node>,
    gate: &G,
    workers: Vec<Worker<Q::Pass, P::Node, P::Plan>>,
    root: P::Node,
) -> Outcome<P::Plan>
    requires valid { P.is_problem problem.now }
    requires count { length workers.items ≡ Q.seats_of shared.now.queue }
    requires new { EachAt (λ k w. IsOneOf Q.belongs shared.now w
        × IsNew (Q.seats_of shared.now.queue) (k + 1) (doing Q.known w)) workers.items }
    requires root { (P.meaning problem.now).stands root [] }
    ensures outcome { IsSearchOutcome (P.meaning problem.now) shared.now.nodes (Q.capacity_of shared.now.queue)
        (Q.seats_of shared.now.queue) result }
    ensures found { IsFoundByAll (P.meaning problem.now) (Q.seats_of shared.now.queue)
        (Q.capacity_of shared.now.queue) result }
{
    let mut workers = workers;
    run_from_root(
        rt,
        alloc,
        problem,
        shared,
        gate,
        workers.as_mut_slice(),
        root,
    );
    let worker = join_all(problem, shared, workers);
    finish(rt, alloc, problem, shared, gate, worker)
}

// The first worker puts the root, and then all run. Where there was no room for the root, none runs.
fn run_from_root<R: Threads + Wait + Sync, Q: BoundedQueue, P: Problem, G: Gate>(
    rt: &R,
    alloc: Global,
    problem: &P,
    shared: &Shared<Q, P::Node>,
    gate: &G,
    workers: &mut [Worker<Q::Pass, P::Node, P::Plan>],
    root: P::Node,
)
    requires valid { P.is_problem problem.now }
    requires some { 1 ≤ length workers.old }
    requires count { length workers.old ≡ Q.seats_of shared.now.queue }
    requires new { EachAt (λ k w. IsOneOf Q.belongs shared.now w
        × IsNew (Q.seats_of shared.now.queue) (k + 1) (doing Q.known w)) workers.old }
    requires root { (P.meaning problem.now).stands root [] }
    ensures count { length workers.new ≡ length workers.old }
    ensures ended { EachAt (λ k w.
        HasEnded Q.belongs Q.known Q.seats_of Q.capacity_of (P.meaning problem.now) shared.now (k + 1) w) workers.new }
{
    if !begin(rt, problem, shared, &mut workers[0], root) {
        return;
    }
    run_all(rt, alloc, problem, shared, gate, workers);
}
