//! The search with one pass, over any bounded queue of one seat.

ghost use Rattle.std.specs.Prelude.{◌≡◌, ◌≤◌, ◌<◌};
ghost use Rattle.pq_model.specs.Passes.{fresh};
ghost use Rattle.bb_problem.specs.Limits.{size_limit};
ghost use Rattle.bb_pool.specs.Limits.{max_nodes};
ghost use Rattle.bb_pool.specs.Outcomes.{IsOutcome, IfNodeLimit};

use crate::one_pass::OnePass;
use crate::outcome::Outcome;
use crate::plain::search_turns;
use bb_problem::Problem;
use pq_api::{Below, BoundedQueue, Gate, Inserted, Point};
use pq_words::Entry;
use std::alloc::Global;
use std::marker::Model;
use std::sync::Wait;

// A queue of one seat with its pass, and the handle and the gate of the search's calls.
#[derive(Drop)]
struct QueuePass<'a, Q: BoundedQueue, R, G> {
    queue: Q,
    pass: Q::Pass,
    rt: &'a R,
    gate: &'a G,
}

impl<'a, Q: BoundedQueue, R, G> Model for QueuePass<'a, Q, R, G> {
    ghost use Rattle.std.specs.Prelude.{◌≡◌};
    ghost use Rattle.bb_pool.specs.OneSeat.{OneSeat};

    ghost Value = { OneSeat };

    ghost view = { λ p. record { capacity = Q.capacity_of p.queue; known = Q.known p.pass } };

    ghost invariant = { λ p. Q.belongs p.queue p.pass × (Q.seats_of p.queue ≡ 1) };
}

impl<'a, Q: BoundedQueue, R: Wait + Sync, G: Gate> OnePass for QueuePass<'a, Q, R, G> {
    ghost seat = { λ p. p };

    fn add(&mut self, e: Entry) -> Inserted {
        self.queue.insert(self.rt, &mut self.pass, e)
    }

    fn take_below(&mut self, limit: u32) -> Below {
        self.queue.remove_below(self.rt, &mut self.pass, limit)
    }

    fn has_taken(&self) {
        self.gate.at(self.rt, Point::WorkerNode);
    }
}

/// Searches for a feasible plan of least cost, the node of least bound first, with the one pass of a queue. It takes
/// the turns of `search_plain`, and ends as that does.
///
/// The queue has to have one seat, and the pass to be its own and new. `nodes`, the node limit, is 1 to `MAX_NODES`.
/// The gate is told each node that was taken, at `Point::WorkerNode`. It may wait, and so may the queue: what is
/// promised holds if this call returns. Queue and pass are dropped at its end.
pub(crate) fn search_alone<R: Wait + Sync, P: Problem, Q: BoundedQueue, G: Gate>(
    rt: &R,
    alloc: Global,
    problem: &P,
    queue: Q,
    pass: Q::Pass,
    nodes: u32,
    gate: &G,
) -> Outcome<P::Plan>
    requires own { Q.belongs queue pass }
    requires one { Q.seats_of queue ≡ 1 }
    requires fresh { Q.known pass ≡ fresh 1 }
    requires nodes { (1 ≤ nodes) × (nodes ≤ max_nodes) }
    ensures outcome { IsOutcome (P.meaning problem.now) nodes (Q.capacity_of queue) result }
    // A node limit of the tree's size is never too low.
    ensures below_size { IfNodeLimit result (λ asked limit. limit < (P.meaning problem.now).tree_size) }
    ensures within_size { let size = (P.meaning problem.now).tree_size in
        IfNodeLimit result (λ asked limit. size < size_limit → asked ≤ size) }
{
    let pass = QueuePass {
        queue,
        pass,
        rt,
        gate,
    };
    search_turns(alloc, problem, pass, nodes)
}
