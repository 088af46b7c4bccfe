//! Insertion: a new leaf is made Busy, and its entry climbs until its parent is not above it.
ghost use Rattle.std.specs.Prelude.{◌≡◌, ◌≢◌, ◌<◌, ◌≤◌, ◌+◌, ◌-◌, ◌/◌, Some, length};
ghost use Rattle.pq_words.specs.declared.entries.Entry.{Entry};
ghost use Rattle.pq_model.specs.declared.marks.Act.TheVariants.{Insert};
ghost use Rattle.pq_model.specs.declared.marks.Reply.TheVariants as replies;
ghost use Rattle.pq_api.specs.Limits.{call_limit};
ghost use Rattle.pq_api.specs.Answers.{MakesCall, IsInserted};
ghost use Rattle.pq_seats.specs.Views.{empty_post};
ghost use Rattle.pq_seats.specs.Passes.{limits_of, view_of, known, Belongs, IsInformed};
ghost use Rattle.pq_hunt.specs.Views.{idle};
ghost use Rattle.pq_hunt.specs.Steps.{busy_number};
ghost use Rattle.pq_nodes.specs.Passes.{ComesTo, Stays};
ghost use Rattle.pq_hunt.specs.HeldPosts.{at_heap, in_flight};
ghost use Rattle.pq_hunt.specs.Tables.{IsHeapTable};

use crate::accesses::{look_at_size, make_busy, store_size};
use crate::climb::climb;
use crate::locks::{free_heap, take_heap};
use crate::{HuntPass, HuntTable};
use pq_api::Inserted;
use pq_model::{Act, Receipt};
use pq_nodes::{free_node, take_node};
use pq_words::{Entry, HeapWord, Tag};
use std::sync::Wait;

/// Takes the heap's lock, and reads the size.
pub(crate) fn begin<W: Wait>(table: &HuntTable, rt: &W, pass: &mut HuntPass) -> u32
    requires table { IsHeapTable table.now }
    requires own { Belongs table.now pass.old }
    requires rests { (view_of pass.old).post ≡ empty_post idle pass.old.number }
    ensures stays { Stays table.now pass.old pass.new }
    ensures size { result ≤ (limits_of table.now).capacity }
    ensures begun { ComesTo (view_of pass.old) (view_of pass.new) (at_heap pass.old.number result) }
{
    take_heap(table, rt, pass);
    look_at_size(table, pass) as u32
}

// Answers that the heap is full, and frees its lock.
fn refuse(table: &HuntTable, pass: &mut HuntPass, e: Entry) -> u32
    requires table { IsHeapTable table.now }
    requires own { Belongs table.now pass.old }
    requires begun { (view_of pass.old).post ≡ at_heap pass.old.number (limits_of table.now).capacity }
    requires few { length (known pass.old).calls < call_limit - 1 }
    ensures stays { Stays table.now pass.old pass.new }
    ensures rests { (view_of pass.new).post ≡ empty_post idle pass.old.number }
    ensures call { MakesCall (known pass.old) result (Insert e) replies.Full (known pass.new) }
    ensures knows { IsInformed table.now pass.new }
{
    let place = table.draw(pass, Act::Insert(e), 1);
    free_heap(table, pass);
    place
}

// Takes the next node for the entry, whose insert is in flight then. The word says that the node is Busy with it.
fn take_leaf<W: Wait>(
    table: &HuntTable,
    rt: &W,
    pass: &mut HuntPass,
    leaf: u32,
    e: Entry,
    word: u64,
)
    requires table { IsHeapTable table.now }
    requires own { Belongs table.now pass.old }
    requires leaf { (1 ≤ leaf) × (leaf ≤ (limits_of table.now).capacity) }
    requires begun { (view_of pass.old).post ≡ at_heap pass.old.number (leaf - 1) }
    requires few { length (known pass.old).calls < call_limit - 1 }
    requires word { word ≡ busy_number pass.old.number e }
    ensures stays { Stays table.now pass.old pass.new }
    ensures flies { ComesTo (view_of pass.old) (view_of pass.new) (in_flight pass.old.number e leaf) }
{
    take_node(table, rt, pass, leaf);
    store_size(table, pass, leaf);
    make_busy(table, pass, leaf, word);
    free_heap(table, pass);
    free_node(table, pass, leaf);
}

/// Inserts an entry, and calls `at_leaf` once it is Busy at its leaf.
pub(crate) fn insert<W: Wait, F: FnMut()>(
    table: &HuntTable,
    capacity: u32,
    mut at_leaf: F,
    rt: &W,
    pass: &mut HuntPass,
    e: Entry,
) -> Inserted
    requires table { IsHeapTable table.now }
    requires capacity { capacity ≡ (limits_of table.now).capacity }
    requires gate { F.IsAlwaysCallable at_leaf }
    requires own { Belongs table.now pass.old }
    requires rests { (view_of pass.old).post ≡ empty_post idle pass.old.number }
    requires few { length (known pass.old).calls < call_limit - 1 }
    ensures stays { Stays table.now pass.old pass.new }
    ensures rests { (view_of pass.new).post ≡ empty_post idle pass.old.number }
    ensures call { IsInserted (known pass.old) e result (known pass.new) }
    ensures knows { IsInformed table.now pass.new }
{
    let size = begin(table, rt, pass);
    if size == capacity {
        let place = refuse(table, pass, e);
        return Inserted::Full(Receipt { place });
    }
    let word = HeapWord {
        tag: Tag::Busy,
        owner: pass.number,
        entry: e,
    };
    let mine = word.pack();
    take_leaf(table, rt, pass, size + 1, e, mine);
    at_leaf();
    let place = climb(table, rt, pass, size + 1, e, mine);
    Inserted::Done(Receipt { place })
}
