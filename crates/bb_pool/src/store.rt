//! The nodes of a search by number, each until it is taken.

ghost use Rattle.std.specs.Prelude.{◌≡◌, [], ◌∷◌, ◌++◌, length, slice_set, slice_get, Some, None, IfOk, OnOk};

use pq_io::NoMemory;
use slab::Slab;
use std::alloc::Global;
use std::marker::Model;

// What stands for the key of a node that was taken. No node has it.
const TAKEN: u32 = u32::MAX;

/// The nodes made so far by number, from 0 on, each until it is taken.
///
/// The room of a node that was taken is used again for a later one: only as many nodes lie in memory as were open
/// at once. Of each number the key is kept under which its node lies.
#[derive(Drop)]
pub(crate) struct Store<N> {
    nodes: Slab<N>,
    keys: Vec<u32>,
}

impl<N> Model for Store<N> {
    ghost use Rattle.std.specs.Prelude.{List, Option, map};
    ghost use Rattle.bb_pool.specs.Keys.{node_in, AreKeys};

    ghost Value = { List (Option N) };

    ghost view = { λ s. map (node_in s.nodes.slots) s.keys.items };

    ghost invariant = { λ s. AreKeys s.nodes.slots s.keys.items };
}

impl<N: Drop> Store<N> {
    ghost use Rattle.bb_pool.specs.Keys.{Holds};

    /// No node, with room for so many.
    pub(crate) fn with_room(alloc: Global, room: usize) -> Result<Store<N>, NoMemory>
        ensures { IfOk result (λ store. store ≡ []) }
    {
        Ok(Store {
            nodes: Slab::with_capacity(alloc, room)?,
            keys: Vec::with_capacity(alloc, room)?,
        })
    }

    /// How many nodes were made.
    pub(crate) fn len(&self) -> usize
        ensures { result ≡ length self.now }
    {
        self.keys.len()
    }

    /// Puts the node under the next number. Constant time, and no memory while there is room.
    #[inline(always)]
    pub(crate) fn push(&mut self, node: N) -> Result<(), NoMemory>
        ensures { OnOk result (self.new ≡ self.old ++ Some node ∷ []) }
    {
        self.nodes.reserve(1)?;
        let key = self.nodes.vacant_key();
        if key >= TAKEN as usize {
            return Err(NoMemory);
        }
        self.keys.push(key as u32)?;
        self.nodes.insert_reserved(node);
        Ok(())
    }

    /// Takes the node with this number out. Constant time.
    #[inline]
    pub(crate) fn take(&mut self, number: usize) -> N
        requires { Holds self.old number }
        ensures node { slice_get self.old number ≡ Some (Some result) }
        ensures rest { self.new ≡ slice_set self.old number None }
    {
        let key = self.keys[number];
        self.keys[number] = TAKEN;
        self.nodes.remove(key as usize)
    }
}
