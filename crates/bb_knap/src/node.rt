//! A node of the tree of decisions.

ghost use Rattle.std.specs.Prelude.{◌≡◌, ◌+◌, ◌-◌, ◌/◌, ◌%◌, ◌<◌, ◌≤◌, ◌^◌, nat_lt, [], ◌∷◌, ◌++◌};
ghost use Rattle.std.specs.Prelude.{length, slice_index, min, if◌then◌else◌, IfOk};
ghost use Rattle.inst_text.specs.Limits.{max_items, max_knapsack_capacity};
ghost use Rattle.bb_knap.specs.Branching.{Node};

use crate::full_words::FullWords;
use inst_text::Item;
use pq_io::NoMemory;
use std::alloc::Global;
use std::marker::Model;

/// A node of the search: decisions on the first items of the order, the room that the taken items leave, and
/// their value.
///
/// The decisions are bits, 64 to a word, an earlier one in a higher bit. Up to 127 of them take no memory of the heap.
#[derive(Debug, Drop)]
pub struct KnapNode {
    full: FullWords,
    last: u64,
    room: u64,
    count: u32,
    value: u32,
}

impl Model for KnapNode {
    ghost use Rattle.std.specs.Prelude.{◌≤◌};
    ghost use Rattle.inst_text.specs.Limits.{max_knapsack_capacity};
    ghost use Rattle.bb_knap.specs.Branching.{Node};
    ghost use Rattle.bb_knap.specs.Decisions.{decisions_in, AreDecisions};

    ghost Value = { Node };

    ghost view = { λ n. record { decisions = decisions_in n.full n.last n.count; room = n.room; value = n.value } };

    ghost invariant = { λ n. AreDecisions n.full n.last n.count × (n.room ≤ max_knapsack_capacity) };
}

impl KnapNode {
    /// The node that decides nothing yet, with this room. Constant time.
    pub(crate) fn root(room: u64) -> KnapNode
        requires { room ≤ max_knapsack_capacity }
        ensures { result ≡ record { decisions = []; room = room; value = 0 } }
    {
        KnapNode {
            full: FullWords::Zero,
            last: 0,
            room,
            count: 0,
            value: 0,
        }
    }

    /// How many items are decided, at most 1,024. Constant time.
    pub(crate) fn depth(&self) -> usize
        ensures depth { result ≡ length self.now.decisions }
        ensures few { result ≤ max_items }
    {
        self.count as usize
    }

    /// Tells whether the decision at this place is to take the item. Constant time.
    pub(crate) fn takes(&self, place: usize) -> bool
        requires { place < length self.now.decisions }
        ensures { result ≡ nat_lt 0 (slice_index self.now.decisions place) }
    {
        let count = self.count as usize;
        if place / 64 < count / 64 {
            return is_set(self.full.word(place / 64), 63 - place % 64);
        }
        is_set(self.last, count % 64 - 1 - place % 64)
    }

    /// The room that is left, at most 1,000,000,000,000. Constant time.
    pub(crate) fn room(&self) -> u64
        ensures room { result ≡ self.now.room }
        ensures within { result ≤ max_knapsack_capacity }
    {
        self.room
    }

    /// The value of the taken items. Constant time.
    pub(crate) fn value(&self) -> u32
        ensures { result ≡ self.now.value }
    {
        self.value
    }

    /// The child that takes the next item, this one, which fits. Constant time; up to 127 decisions it takes no memory.
    pub(crate) fn taking(&self, alloc: Global, item: Item) -> Result<KnapNode, NoMemory>
        requires depth { length self.now.decisions < max_items }
        requires fits { item.weight ≤ self.now.room }
        ensures { IfOk result (λ child. child ≡ record {
          decisions = self.now.decisions ++ 1 ∷ [];
          room = self.now.room - item.weight;
          value = min (self.now.value + item.value) (2 ^ 32 - 1);
        }) }
    {
        let node = KnapNode {
            full: self.full.copied(alloc)?,
            last: self.last,
            room: self.room - u64::from(item.weight),
            count: self.count,
            value: self.value.saturating_add(item.value),
        };
        node.deciding(alloc, true)
    }

    /// The child that leaves the next item. Constant time; up to 127 decisions it takes no memory.
    pub(crate) fn leaving(self, alloc: Global) -> Result<KnapNode, NoMemory>
        requires { length self.decisions < max_items }
        ensures { IfOk result (λ child. child ≡ record self { decisions = self.decisions ++ 0 ∷ [] }) }
    {
        self.deciding(alloc, false)
    }

    // The same node with one decision more.
    fn deciding(self, alloc: Global, taken: bool) -> Result<KnapNode, NoMemory>
        requires { length self.decisions < max_items }
        ensures { IfOk result (λ child. child ≡
            record self { decisions = self.decisions ++ (if taken then 1 else 0) ∷ [] }) }
    {
        let KnapNode {
            full,
            last,
            room,
            count,
            value,
        } = self;
        let word = last * 2 + u64::from(taken);
        if count % 64 < 63 {
            return Ok(KnapNode {
                full,
                last: word,
                room,
                count: count + 1,
                value,
            });
        }
        Ok(KnapNode {
            full: full.with(alloc, count as usize / 64, word)?,
            last: 0,
            room,
            count: count + 1,
            value,
        })
    }
}

// Tells whether this bit of the word is 1.
fn is_set(word: u64, bit: usize) -> bool
    requires { bit < 64 }
    ensures { result ≡ nat_lt 0 (word / 2 ^ bit % 2) }
{
    0 < (word >> bit) % 2
}
