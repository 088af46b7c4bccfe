//! The search with one caller, over a plain queue.

ghost use Rattle.std.specs.Prelude.{ℕ, ◌≡◌, ◌≤◌, ◌<◌, List, [], IfOk, IfErr, length};
ghost use Rattle.pq_model.specs.Passes.{fresh};
ghost use Rattle.bb_problem.specs.Limits.{max_children, size_limit};
ghost use Rattle.bb_pool.specs.Limits.{max_nodes};
ghost use Rattle.bb_pool.specs.Outcomes.{IsOutcome, IsStop, IfNodeLimit};
ghost use Rattle.bb_pool.specs.Children.{StandAt};
ghost use Rattle.bb_pool.specs.Underway.{state_of, IsUnderway, IsOver, IsTurnOfOne};

use crate::children::{bounds, is_below};
use crate::found::Found;
use crate::one_pass::OnePass;
use crate::outcome::{Outcome, of_best, of_stop};
use crate::state::Search;
use crate::store::Store;
use bb_problem::{Problem, needed_is_at_most_tree_size};
use bb_shared::Stop;
use pq_api::PlainPass;
use pq_model::left_rises;
use std::alloc::Global;
use std::ops::ControlFlow;

/// Searches for a feasible plan of least cost, the node of least bound first, with one caller. It returns
/// always.
///
/// The pass has to be new, and `nodes`, the node limit, from 1 to `MAX_NODES`. The root has the number 0. A turn
/// asks for the least entry whose key is below the best cost so far. The key is a node's bound, the id its number,
/// and the node is expanded: a leaf's plan is kept where it is cheaper than the best, and of a branch the children
/// whose bounds are below the best cost get the next numbers, and are stored and inserted in order.
///
/// `Best` comes when no such entry is left. `NodeLimit` comes where a branch's children would pass the limit, before
/// one of them is inserted; the tree needs at least as many nodes as were asked for. `Full` comes only where the
/// capacity is below the limit and below what the tree needs. Either way the nodes still open are dropped.
///
/// Room for `nodes` nodes is reserved first. There are at most `2 * nodes + 1` calls of the queue, one bound for
/// each node that a branch gives, and one expansion at most for each node that is made. After A. H. Land and
/// A. G. Doig, "An Automatic Method of Solving Discrete Programming Problems" (Econometrica, 1960).
pub fn search_plain<P: Problem>(
    alloc: Global,
    problem: &P,
    pass: PlainPass,
    nodes: u32,
) -> Outcome<P::Plan>
    requires fresh { pass.known ≡ fresh 1 }
    requires nodes { (1 ≤ nodes) × (nodes ≤ max_nodes) }
    ensures outcome { IsOutcome (P.meaning problem.now) nodes pass.capacity result }
    // A node limit of the tree's size is never too low.
    ensures below_size { IfNodeLimit result (λ asked limit. limit < (P.meaning problem.now).tree_size) }
{
    search_turns(alloc, problem, pass, nodes)
}

/// The search of `search_plain`, over the pass of any queue of one seat: begins, takes turns and ends.
pub(crate) fn search_turns<C: OnePass, P: Problem>(
    alloc: Global,
    problem: &P,
    pass: C,
    nodes: u32,
) -> Outcome<P::Plan>
    requires fresh { (C.seat pass).known ≡ fresh 1 }
    requires nodes { (1 ≤ nodes) × (nodes ≤ max_nodes) }
    ensures outcome { IsOutcome (P.meaning problem.now) nodes (C.seat pass).capacity result }
    ensures below_size { IfNodeLimit result (λ asked limit. limit < (P.meaning problem.now).tree_size) }
    ensures within_size { let size = (P.meaning problem.now).tree_size in
        IfNodeLimit result (λ asked limit. size < size_limit → asked ≤ size) }
{
    needed_is_at_most_tree_size(problem);
    let mut search = match begin(alloc, problem, pass, nodes) {
        Ok(search) => search,
        Err(stop) => return of_stop(stop, nodes),
    };
    match go_on(alloc, problem, &mut search, nodes) {
        Ok(()) => of_best(search.best),
        Err(stop) => of_stop(stop, nodes),
    }
}

// The search with the root in the queue, under the number 0.
fn begin<C: OnePass, P: Problem>(
    alloc: Global,
    problem: &P,
    pass: C,
    nodes: u32,
) -> Result<Search<C, P::Node, P::Plan>, Stop>
    requires fresh { (C.seat pass).known ≡ fresh 1 }
    requires nodes { (1 ≤ nodes) × (nodes ≤ max_nodes) }
    ensures valid { P.is_problem problem.now }
    ensures begun { IfOk result (λ search.
        IsUnderway (P.meaning problem.now) nodes (C.seat pass).capacity (state_of C.seat search) []) }
    ensures stops { IfErr result (IsStop (P.meaning problem.now) nodes (C.seat pass).capacity) }
{
    let root = problem.root(alloc)?;
    let store = Store::with_room(alloc, nodes as usize)?;
    let key = problem.bound(&root);
    let mut search = Search {
        pass,
        store,
        keys: Vec::new(alloc),
        best: None,
    };
    search.put(key, root)?;
    Ok(search)
}

// Turn by turn, until no entry is left whose key is below the best cost.
fn go_on<C: OnePass, P: Problem>(
    alloc: Global,
    problem: &P,
    search: &mut Search<C, P::Node, P::Plan>,
    nodes: u32,
) -> Result<(), Stop>
    requires nodes { nodes ≤ max_nodes }
    requires underway { let state = state_of C.seat search.old in
        IsUnderway (P.meaning problem.now) nodes state.queue.capacity state [] }
    ensures over { IfOk result (λ _. IsOver (P.meaning problem.now) nodes (C.seat search.old.pass).capacity
        search.new.best (C.seat search.new.pass).known) }
    ensures stops { IfErr result (IsStop (P.meaning problem.now) nodes (C.seat search.old.pass).capacity) }
{
    let mut children = Vec::new(alloc);
    while let ControlFlow::Continue(()) = take_turn(
        alloc,
        problem,
        search,
        &mut children,
        nodes,
    )? {}
    Ok(())
}

// One turn: the least entry's node is expanded to a plan or to children. Of the list only its memory is used.
fn take_turn<C: OnePass, P: Problem>(
    alloc: Global,
    problem: &P,
    search: &mut Search<C, P::Node, P::Plan>,
    children: &mut Vec<P::Node>,
    nodes: u32,
) -> Result<ControlFlow<()>, Stop>
    requires nodes { nodes ≤ max_nodes }
    requires underway { let state = state_of C.seat search.old in
        IsUnderway (P.meaning problem.now) nodes state.queue.capacity state [] }
    ensures turn { let before = state_of C.seat search.old in IfOk result (λ flow.
        IsTurnOfOne (P.meaning problem.now) nodes before.queue.capacity before flow (state_of C.seat search.new)) }
    ensures stops { IfErr result (IsStop (P.meaning problem.now) nodes (C.seat search.old.pass).capacity) }
{
    left_rises();
    let Some(child) = search.take() else {
        return Ok(ControlFlow::Break(()));
    };
    match problem.expand_into(alloc, child.node, children)? {
        Some(plan) => {
            let cost = problem.cost(&plan);
            if is_below(cost, search.best_cost()) {
                search.best = Some(Found { plan, cost });
            }
        }
        None => branch(problem, search, children, nodes)?,
    }
    Ok(ControlFlow::Continue(()))
}

// Puts the children whose bounds are below the best cost.
fn branch<C: OnePass, P: Problem>(
    problem: &P,
    search: &mut Search<C, P::Node, P::Plan>,
    children: &mut Vec<P::Node>,
    nodes: u32,
) -> Result<(), Stop>
    requires nodes { nodes ≤ max_nodes }
    requires few { length children.old.items ≤ max_children }
    requires underway { let state = state_of C.seat search.old in
        (waiting : List (List ℕ)) × StandAt (P.meaning problem.now).stands children.old.items waiting
        × IsUnderway (P.meaning problem.now) nodes state.queue.capacity state waiting }
    ensures calls { IfOk result (λ _.
        length (C.seat search.old.pass).known.calls ≤ length (C.seat search.new.pass).known.calls) }
    ensures underway { IfOk result (λ _.
        IsUnderway (P.meaning problem.now) nodes (C.seat search.old.pass).capacity (state_of C.seat search.new) []) }
    ensures stops { IfErr result (IsStop (P.meaning problem.now) nodes (C.seat search.old.pass).capacity) }
{
    let best = search.best_cost();
    let kept = bounds(problem, children, best, &mut search.keys)?;
    let asked = search.store.len() as u64 + kept as u64;
    if asked > u64::from(nodes) {
        return Err(Stop::NodeLimit { asked });
    }
    // They are taken from the end, in order.
    children.reverse();
    let mut place = 0;
    while let Some(node) = children.pop() {
        let key = search.keys[place];
        place += 1;
        if !is_below(key, best) {
            continue;
        }
        search.put(key, node)?;
    }
    Ok(())
}
