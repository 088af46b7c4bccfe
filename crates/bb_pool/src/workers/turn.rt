//! One turn of a worker: a node is taken and expanded, and its children are put.

ghost use Rattle.std.specs.Prelude.{◌≡◌, ℕ, ◌+◌, ◌<◌, ◌≤◌, List, [], ◌∷◌, length, All};
ghost use Rattle.std.specs.Prelude.{Option, IfOk, IfErr, IfSome, IfNone};
ghost use Rattle.pq_words.specs.Limits.{key_limit};
ghost use Rattle.pq_model.specs.Passes.{Knows};
ghost use Rattle.bb_problem.specs.Limits.{max_children};
ghost use Rattle.bb_problem.specs.declared.step.Step.TheVariants as steps;
ghost use Rattle.bb_problem.specs.Expanding.{IsExpanded};
ghost use Rattle.bb_shared.specs.declared.control.stop.Stop.TheVariants as stops;
ghost use Rattle.bb_shared.specs.declared.store.stored.Numbered.{Numbered};
ghost use Rattle.bb_shared.specs.Stores.{numbered, with_put, with_take, IsFree};
ghost use Rattle.bb_shared.specs.Controls.{IsTellable};
ghost use Rattle.bb_pool.specs.Costs.{limit_of};
ghost use Rattle.bb_pool.specs.Children.{AreBounds};
ghost use Rattle.bb_pool.specs.Working.{kept_of};
ghost use Rattle.bb_pool.specs.Origins.{Origin, HasOrigins, KeepsOrigins, IsAmongOrigins, AreLeftOf};
ghost use Rattle.bb_pool.specs.Together.{doing, IsOneOf, AtWork, CanGoOn, GoesOn};
ghost use Rattle.bb_pool.specs.Turns.{HoldsNode, HasExpanded, HasRead, WaitsFrom, AreFree, IsPut, EndsIfWhole};
ghost use Rattle.bb_pool.specs.Turns.{HasWorked, IsTurn, IsHalt};

use super::shared::{Shared, Worker};
use crate::child::Child;
use crate::children::{bounds, is_below};
use crate::found::Found;
use bb_problem::{Problem, Step};
use bb_shared::{Drawn, Stop};
use pq_api::{Below, BoundedQueue, Gate, Inserted, Point};
use pq_words::{Entry, KEY_LIMIT};
use std::alloc::Global;
use std::sync::Wait;

/// What a worker met in a turn.
#[derive(Clone, Copy, Debug, PartialEq, Eq)]
pub(crate) enum Turn {
    /// It took a node.
    Worked,
    /// No entry was left that is below the best cost.
    Idle,
}

/// One turn: the least entry's node is expanded to a plan or to children, where its key is below the best cost.
pub(crate) fn take_turn<R: Wait + Sync, Q: BoundedQueue, P: Problem, G: Gate>(
    rt: &R,
    alloc: Global,
    problem: &P,
    shared: &Shared<Q, P::Node>,
    gate: &G,
    worker: &mut Worker<Q::Pass, P::Node, P::Plan>,
) -> Result<Turn, Stop>
    requires valid { P.is_problem problem.now }
    requires own { IsOneOf Q.belongs shared.now worker.old }
    requires counted { CanGoOn shared.now.nodes (doing Q.known worker.old) }
    requires working { AtWork (P.meaning problem.now) (doing Q.known worker.old) }
    requires knows { Knows (Q.seats_of shared.now.queue) (Q.capacity_of shared.now.queue) (Q.known worker.old.pass) }
    ensures own { IsOneOf Q.belongs shared.now worker.new }
    ensures knows { Knows (Q.seats_of shared.now.queue) (Q.capacity_of shared.now.queue) (Q.known worker.new.pass) }
    ensures turn { IfOk result (IsTurn (P.meaning problem.now) shared.now.nodes (Q.seats_of shared.now.queue)
        (Q.capacity_of shared.now.queue) (doing Q.known worker.old) (doing Q.known worker.new)) }
    ensures halt { IfErr result (IsHalt shared.now.nodes (doing Q.known worker.old) (doing Q.known worker.new)) }
    ensures traced { KeepsOrigins (P.meaning problem.now) worker.old.seat.kept worker.new.seat.kept }
{
    shared.control.opened(&mut worker.control, 1);
    match take_node(rt, problem, shared, gate, worker) {
        None => {
            shared.control.closed(&mut worker.control);
            Ok(Turn::Idle)
        }
        Some(child) => {
            expand_node(rt, alloc, problem, shared, worker, child)?;
            shared.control.closed(&mut worker.control);
            Ok(Turn::Worked)
        }
    }
}

// Removes the least entry and takes its node, where its key is below the best cost, and gives `None` where there is no
// such entry.
fn take_node<R: Wait + Sync, Q: BoundedQueue, P: Problem, G: Gate>(
    rt: &R,
    problem: &P,
    shared: &Shared<Q, P::Node>,
    gate: &G,
    worker: &mut Worker<Q::Pass, P::Node, P::Plan>,
) -> Option<Child<P::Node>>
    requires own { IsOneOf Q.belongs shared.now worker.old }
    requires counted { CanGoOn shared.now.nodes (doing Q.known worker.old) }
    requires working { AtWork (P.meaning problem.now) (doing Q.known worker.old) }
    ensures own { IsOneOf Q.belongs shared.now worker.new }
    ensures knows { Knows (Q.seats_of shared.now.queue) (Q.capacity_of shared.now.queue) (Q.known worker.new.pass) }
    ensures held { IfSome result (λ child.
        GoesOn shared.now.nodes 0 (doing Q.known worker.old) (doing Q.known worker.new)
        × HoldsNode (P.meaning problem.now) (doing Q.known worker.new) child) }
    ensures none { IfNone result (GoesOn shared.now.nodes 1 (doing Q.known worker.old) (doing Q.known worker.new)
        × AtWork (P.meaning problem.now) (doing Q.known worker.new)
        × EndsIfWhole (Q.seats_of shared.now.queue) (Q.capacity_of shared.now.queue) (doing Q.known worker.new)) }
    ensures took { IfSome result (λ child. (number : ℕ)
        × (worker.new.seat.kept ≡ with_take worker.old.seat.kept (numbered number child.node))) }
    ensures same { IfNone result (worker.new.seat.kept ≡ worker.old.seat.kept) }
{
    let best = shared.control.best(&mut worker.control);
    worker.made += 1;
    let pass = &mut worker.pass;
    match shared.queue.remove_below(rt, pass, limit(best)) {
        Below::Got(e, _) => {
            let node = shared.store.take(rt, &mut worker.seat, e.id);
            gate.at(rt, Point::WorkerNode);
            Some(Child { key: e.key, node })
        }
        Below::Empty(_) => None,
        Below::Above(_) => None,
    }
}

// The limit of a removal, where this is the best cost.
fn limit(best: Option<u32>) -> u32
    requires small { IfSome best (λ cost. cost < key_limit) }
    ensures limit { result ≡ limit_of best }
    ensures within { result ≤ key_limit }
{
    match best {
        Some(best) => best,
        None => KEY_LIMIT,
    }
}

// Drops the node where its key is not below the best cost, and expands it otherwise.
fn expand_node<R: Wait + Sync, Q: BoundedQueue, P: Problem>(
    rt: &R,
    alloc: Global,
    problem: &P,
    shared: &Shared<Q, P::Node>,
    worker: &mut Worker<Q::Pass, P::Node, P::Plan>,
    child: Child<P::Node>,
) -> Result<(), Stop>
    requires valid { P.is_problem problem.now }
    requires own { IsOneOf Q.belongs shared.now worker.old }
    requires counted { CanGoOn shared.now.nodes (doing Q.known worker.old) }
    requires held { HoldsNode (P.meaning problem.now) (doing Q.known worker.old) child }
    requires knows { Knows (Q.seats_of shared.now.queue) (Q.capacity_of shared.now.queue) (Q.known worker.old.pass) }
    ensures own { IsOneOf Q.belongs shared.now worker.new }
    ensures knows { Knows (Q.seats_of shared.now.queue) (Q.capacity_of shared.now.queue) (Q.known worker.new.pass) }
    ensures worked { IfOk result (λ _. HasWorked (P.meaning problem.now) shared.now.nodes
        (doing Q.known worker.old) (doing Q.known worker.new)) }
    ensures halt { IfErr result (IsHalt shared.now.nodes (doing Q.known worker.old) (doing Q.known worker.new)) }
    ensures traced { (root : Option ℕ) (number : ℕ)
        → HasOrigins (P.meaning problem.now) root (numbered number child.node ∷ []) worker.old.seat.kept
        → HasOrigins (P.meaning problem.now) root [] worker.new.seat.kept }
{
    let best = shared.control.best(&mut worker.control);
    if !is_below(child.key, best) {
        return Ok(());
    }
    match problem.expand(alloc, child.node) {
        Ok(Step::Leaf(plan)) => {
            keep_plan(problem, shared, worker, plan, best);
            Ok(())
        }
        Ok(Step::Branch(children)) => put_children(rt, problem, shared, worker, children, best),
        Err(_) => Err(Stop::NoMemory),
    }
}

// Keeps a leaf's plan and tells its cost, where that is below the best cost.
fn keep_plan<Q: BoundedQueue, P: Problem>(
    problem: &P,
    shared: &Shared<Q, P::Node>,
    worker: &mut Worker<Q::Pass, P::Node, P::Plan>,
    plan: P::Plan,
    best: Option<u32>,
)
    requires own { IsOneOf Q.belongs shared.now worker.old }
    requires read { HasRead (doing Q.known worker.old) best }
    requires small { (P.meaning problem.now).cost_of plan < key_limit }
    requires leaf { HasExpanded (P.meaning problem.now) (doing Q.known worker.old) (steps.Leaf plan) }
    ensures own { IsOneOf Q.belongs shared.now worker.new }
    ensures pass { worker.new.pass ≡ worker.old.pass }
    ensures seat { worker.new.seat ≡ worker.old.seat }
    ensures on { GoesOn shared.now.nodes 0 (doing Q.known worker.old) (doing Q.known worker.new) }
    ensures working { AtWork (P.meaning problem.now) (doing Q.known worker.new) }
{
    let cost = problem.cost(&plan);
    if is_below(cost, best) {
        shared.control.better(&mut worker.control, cost);
        worker.found = Some(Found { plan, cost });
        return;
    }
}

// Puts the children whose bounds are below the best cost, under numbers that are drawn for exactly these.
fn put_children<R: Wait + Sync, Q: BoundedQueue, P: Problem>(
    rt: &R,
    problem: &P,
    shared: &Shared<Q, P::Node>,
    worker: &mut Worker<Q::Pass, P::Node, P::Plan>,
    children: Vec<P::Node>,
    best: Option<u32>,
) -> Result<(), Stop>
    requires valid { P.is_problem problem.now }
    requires own { IsOneOf Q.belongs shared.now worker.old }
    requires counted { CanGoOn shared.now.nodes (doing Q.known worker.old) }
    requires read { HasRead (doing Q.known worker.old) best }
    requires few { (1 ≤ length children.items) × (length children.items ≤ max_children) }
    requires branch { HasExpanded (P.meaning problem.now) (doing Q.known worker.old) (steps.Branch children) }
    requires knows { Knows (Q.seats_of shared.now.queue) (Q.capacity_of shared.now.queue) (Q.known worker.old.pass) }
    ensures own { IsOneOf Q.belongs shared.now worker.new }
    ensures knows { Knows (Q.seats_of shared.now.queue) (Q.capacity_of shared.now.queue) (Q.known worker.new.pass) }
    ensures worked { IfOk result (λ _. HasWorked (P.meaning problem.now) shared.now.nodes
        (doing Q.known worker.old) (doing Q.known worker.new)) }
    ensures halt { IfErr result (IsHalt shared.now.nodes (doing Q.known worker.old) (doing Q.known worker.new)) }
    ensures traced { (root : Option ℕ) (parent : Numbered P.Node)
        → ((name : List ℕ) → (P.meaning problem.now).stands parent.node name
        → IsExpanded (P.meaning problem.now) name (steps.Branch children))
        → HasOrigins (P.meaning problem.now) root (parent ∷ []) worker.old.seat.kept
        → HasOrigins (P.meaning problem.now) root [] worker.new.seat.kept }
{
    let Ok(kept) = bounds(problem, &children, best, &mut worker.keys) else {
        return Err(Stop::NoMemory);
    };
    if kept == 0 {
        return Ok(());
    }
    match shared
        .store
        .draw(&mut worker.seat, kept as u32, shared.nodes)
    {
        Drawn::First(first) => put_kept(rt, problem, shared, worker, children, best, first),
        Drawn::Over { asked } => Err(Stop::NodeLimit { asked }),
    }
}

// Puts those of the children whose bounds are below the best cost, in order, under the numbers from this one on.
fn put_kept<R: Wait + Sync, Q: BoundedQueue, P: Problem>(
    rt: &R,
    problem: &P,
    shared: &Shared<Q, P::Node>,
    worker: &mut Worker<Q::Pass, P::Node, P::Plan>,
    children: Vec<P::Node>,
    best: Option<u32>,
    first: u32,
) -> Result<(), Stop>
    requires own { IsOneOf Q.belongs shared.now worker.old }
    requires counted { CanGoOn shared.now.nodes (doing Q.known worker.old) }
    requires bounds { AreBounds (P.meaning problem.now) children.items worker.old.keys.items }
    requires small { All (λ key. key < key_limit) worker.old.keys.items }
    requires waits { WaitsFrom (P.meaning problem.now) (doing Q.known worker.old)
        (kept_of best children.items worker.old.keys.items) first }
    requires within { first + length (kept_of best children.items worker.old.keys.items) ≤ shared.now.nodes }
    requires free { AreFree worker.old.seat.kept first (length (kept_of best children.items worker.old.keys.items)) }
    requires knows { Knows (Q.seats_of shared.now.queue) (Q.capacity_of shared.now.queue) (Q.known worker.old.pass) }
    ensures own { IsOneOf Q.belongs shared.now worker.new }
    ensures knows { Knows (Q.seats_of shared.now.queue) (Q.capacity_of shared.now.queue) (Q.known worker.new.pass) }
    ensures worked { IfOk result (λ _. HasWorked (P.meaning problem.now) shared.now.nodes
        (doing Q.known worker.old) (doing Q.known worker.new)) }
    ensures halt { IfErr result (IsHalt shared.now.nodes (doing Q.known worker.old) (doing Q.known worker.new)) }
    ensures traced { (root : Option ℕ) (o : Origin P.Node)
        → IsAmongOrigins (P.meaning problem.now) root o worker.old.seat.kept
        → AreLeftOf (P.meaning problem.now) best o first children.items worker.old.keys.items
        → HasOrigins (P.meaning problem.now) root [] worker.new.seat.kept }
{
    let mut number = first;
    let mut place = 0;
    for node in children {
        let key = worker.keys[place];
        place += 1;
        if !is_below(key, best) {
            continue;
        }
        put_child(rt, shared, worker, Child { key, node }, number)?;
        number += 1;
    }
    Ok(())
}

/// Puts a node into the store under the number, and inserts an entry for it.
pub(crate) fn put_child<R: Wait + Sync, Q: BoundedQueue, N: Send + Drop, L: Drop>(
    rt: &R,
    shared: &Shared<Q, N>,
    worker: &mut Worker<Q::Pass, N, L>,
    child: Child<N>,
    number: u32,
) -> Result<(), Stop>
    requires own { IsOneOf Q.belongs shared.now worker.old }
    requires counted { CanGoOn shared.now.nodes (doing Q.known worker.old) }
    requires within { number < shared.now.nodes }
    requires free { IsFree worker.old.seat.kept number }
    ensures own { IsOneOf Q.belongs shared.now worker.new }
    ensures knows { Knows (Q.seats_of shared.now.queue) (Q.capacity_of shared.now.queue) (Q.known worker.new.pass) }
    ensures keys { worker.new.keys ≡ worker.old.keys }
    ensures seat { worker.new.seat.kept ≡ with_put worker.old.seat.kept (numbered number child.node) }
    ensures put { IfOk result (λ _. GoesOn shared.now.nodes 0 (doing Q.known worker.old) (doing Q.known worker.new)
        × IsPut (doing Q.known worker.old) (doing Q.known worker.new) child number) }
    ensures halt { IfErr result (IsHalt shared.now.nodes (doing Q.known worker.old) (doing Q.known worker.new)) }
{
    let Child { key, node } = child;
    shared.store.put(&mut worker.seat, number, node);
    worker.made += 1;
    let e = Entry { key, id: number };
    match shared.queue.insert(rt, &mut worker.pass, e) {
        Inserted::Done(_) => Ok(()),
        Inserted::Full(receipt) => Err(full_at(receipt.place)),
    }
}

// The stop of an insert that found the queue full at this place.
fn full_at(place: u32) -> Stop
    ensures stop { result ≡ stops.Full place }
    ensures tellable { IsTellable result }
{
    Stop::Full { place }
}
