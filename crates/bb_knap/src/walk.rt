//! A walk through the tree of decisions in preorder.

ghost use Rattle.std.specs.Prelude.{ℕ, ◌≡◌, ◌<◌, ◌↔◌, List, [], ◌∷◌, ◌++◌, false, length, slice_index_or};
ghost use Rattle.std.specs.Prelude.{IsTrue, IfOk, IfErr, MatchOption};
ghost use Rattle.bb_knap.specs.Branching.{bound_of, children_of};
ghost use Rattle.bb_knap.specs.Walking.{names_below, IsLastTaken};

use crate::knapsack::Knapsack;
use crate::order::numbered_item;
use pq_io::NoMemory;
use std::alloc::Global;
use std::marker::Model;

/// A walk through the tree of a knapsack's decisions in preorder: at each node the walker says whether it goes on
/// to the node's children or leaves out what stands under it.
///
/// It is seen as the names of the nodes that it still has to come to, the next one first. It keeps the path to that
/// one alone: a decision for each item at most.
#[derive(Debug, Drop)]
pub struct KnapWalk<'a> {
    knapsack: &'a Knapsack,
    path: Vec<bool>,
    room: u64,
    value: u32,
    over: bool,
}

impl<'a> Model for KnapWalk<'a> {
    ghost use Rattle.std.specs.Prelude.{◌≤◌};
    ghost use Rattle.inst_text.specs.Limits.{max_knapsack_capacity};
    ghost use Rattle.bb_knap.specs.Walking.{Walk, LeadsTo, pending_at};

    ghost Value = { Walk };

    ghost view = { λ w. record { instance = w.knapsack.now; pending = pending_at w.over w.path.items } };

    ghost invariant = { λ w. LeadsTo w.knapsack.now w.path.items w.room w.value × (w.room ≤ max_knapsack_capacity) };
}

// The last place of the path at which it takes an item.
fn last_taken(path: &[bool]) -> Option<usize>
    ensures { MatchOption result
        ((k : ℕ) → k < length path.now → slice_index_or path.now k false ≡ false) (IsLastTaken path.now) }
{
    for place in (0..path.len()).rev() {
        if path[place] {
            return Some(place);
        }
    }
    None
}

impl<'a> KnapWalk<'a> {
    /// A walk that begins at the root. It reserves the memory for the longest path.
    pub fn new(alloc: Global, knapsack: &'a Knapsack) -> Result<KnapWalk<'a>, NoMemory>
        ensures { IfOk result (λ walk. walk ≡ record { instance = knapsack.now; pending = [] ∷ [] }) }
    {
        Ok(KnapWalk {
            knapsack,
            path: Vec::with_capacity(alloc, knapsack.items().len())?,
            room: knapsack.capacity(),
            value: 0,
            over: false,
        })
    }

    /// Tells whether there is no node left to come to. Constant time.
    pub fn is_over(&self) -> bool
        ensures { IsTrue result ↔ self.now.pending ≡ [] }
    {
        self.over
    }

    /// Tells whether the next node has no children. Constant time.
    pub fn is_leaf(&self) -> bool
        ensures { (name : List ℕ) (rest : List (List ℕ)) → self.now.pending ≡ name ∷ rest →
            IsTrue result ↔ children_of self.now.instance name ≡ [] }
    {
        self.knapsack.items().len() <= self.path.len()
    }

    /// The bound of the next node. O(log n).
    pub fn bound(&self) -> u32
        ensures { (name : List ℕ) (rest : List (List ℕ)) → self.now.pending ≡ name ∷ rest →
            result ≡ bound_of self.now.instance name }
    {
        self.knapsack
            .bound_at(self.path.len(), self.room, self.value)
    }

    /// Goes on to the children of the next node, or past it where it has none. Constant time, but for `skip` there.
    /// Refused for memory, the walk stays as it is.
    pub fn enter(&mut self) -> Result<(), NoMemory>
        ensures ok { IfOk result (λ _. (name : List ℕ) (rest : List (List ℕ)) → self.old.pending ≡ name ∷ rest →
            self.new ≡ record self.old { pending = names_below self.old.instance name ++ rest }) }
        ensures err { IfErr result (λ _. self.new ≡ self.old) }
    {
        let depth = self.path.len();
        let order = self.knapsack.order();
        if order.len() <= depth {
            self.skip();
            return Ok(());
        }
        let item = numbered_item(self.knapsack.items(), order[depth]);
        let fits = u64::from(item.weight) <= self.room;
        self.path.push(fits)?;
        if fits {
            self.room -= u64::from(item.weight);
            self.value += item.value;
        }
        Ok(())
    }

    /// Goes past the next node and all that stands under it. Over a whole walk, constant time for each node.
    pub fn skip(&mut self)
        ensures { (name : List ℕ) (rest : List (List ℕ)) → self.old.pending ≡ name ∷ rest →
            self.new ≡ record self.old { pending = rest } }
    {
        let Some(place) = last_taken(self.path.as_slice()) else {
            self.over = true;
            return;
        };
        let order = self.knapsack.order();
        let item = numbered_item(self.knapsack.items(), order[place]);
        self.path.truncate(place + 1);
        self.path[place] = false;
        self.room += u64::from(item.weight);
        self.value -= item.value;
    }
}
