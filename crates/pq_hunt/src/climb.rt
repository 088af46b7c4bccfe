//! The climb of an inserted entry: from its leaf towards the root, until its parent is not above it.
ghost use Rattle.std.specs.Prelude.{◌≡◌, ◌≢◌, ◌<◌, ◌≤◌, ◌+◌, ◌-◌, ◌/◌, ◌∷◌, [], Some, length};
ghost use Rattle.pq_words.specs.declared.entries.Entry.{Entry};
ghost use Rattle.pq_words.specs.Entries.{raw_of};
ghost use Rattle.pq_model.specs.declared.marks.Act.TheVariants.{Insert};
ghost use Rattle.pq_model.specs.declared.marks.Reply.TheVariants as replies;
ghost use Rattle.pq_api.specs.Limits.{call_limit};
ghost use Rattle.pq_api.specs.Answers.{MakesCall};
ghost use Rattle.pq_seats.specs.Views.{empty_post};
ghost use Rattle.pq_seats.specs.Passes.{limits_of, view_of, known, Belongs, IsInformed};
ghost use Rattle.pq_hunt.specs.declared.nodes.Node.{Node};
ghost use Rattle.pq_hunt.specs.declared.nodes.Node.TheVariants.{Busy};
ghost use Rattle.pq_hunt.specs.Words.{Means};
ghost use Rattle.pq_nodes.specs.Views.{guard};
ghost use Rattle.pq_hunt.specs.Views.{idle};
ghost use Rattle.pq_hunt.specs.Steps.{busy_number, missing};
ghost use Rattle.pq_nodes.specs.Passes.{ComesTo, Stays};
ghost use Rattle.pq_hunt.specs.HeldPosts.{in_flight, guarding_flight};
ghost use Rattle.pq_hunt.specs.Climbing.{IsPaired, TookPair};
ghost use Rattle.pq_hunt.specs.Turns.{IsTurned, IsDone};
ghost use Rattle.pq_hunt.specs.Tables.{IsHeapTable};

use crate::accesses::{climb_to, find, find_at_root};
use crate::{HuntPass, HuntTable};
use crossbeam_utils::Backoff;
use pq_model::Act;
use pq_nodes::{free_node, free_two, look, store, take_node};
use pq_words::{Entry, HeapWord, Letter, Tag};
use std::ops::ControlFlow;
use std::sync::Wait;

// Takes the locks of the node where the seat looks for its entry, and before it of the parent.
fn take_pair<W: Wait>(
    table: &HuntTable,
    rt: &W,
    pass: &mut HuntPass,
    parent: u32,
    child: u32,
    e: Entry,
)
    requires table { IsHeapTable table.now }
    requires own { Belongs table.now pass.old }
    requires nodes { (1 ≤ parent) × (parent ≤ (limits_of table.now).capacity) × (1 ≤ child) ×
        (child ≤ (limits_of table.now).capacity) }
    requires flies { (view_of pass.old).post ≡ in_flight pass.old.number e child }
    ensures stays { Stays table.now pass.old pass.new }
    ensures took { TookPair (view_of pass.old) (view_of pass.new) pass.old.number e parent child }
{
    take_node(table, rt, pass, parent);
    take_node(table, rt, pass, child);
}

// Ends the climb: the insert gets its place, and the node is Available.
fn settle(table: &HuntTable, pass: &mut HuntPass, parent: u32, child: u32, e: Entry) -> u32
    requires table { IsHeapTable table.now }
    requires own { Belongs table.now pass.old }
    requires nodes { (parent ≡ child / 2) × (1 ≤ parent) × (child ≤ (limits_of table.now).capacity) }
    requires few { length (known pass.old).calls < call_limit - 1 }
    requires pair { (above : _) ×
        (p : IsPaired (view_of pass.old) pass.old.number e parent child above (busy_number pass.old.number e)) ×
        (raw_of p.other ≤ raw_of e) }
    ensures stays { Stays table.now pass.old pass.new }
    ensures rests { (view_of pass.new).post ≡ empty_post idle pass.old.number }
    ensures call { MakesCall (known pass.old) result (Insert e) replies.Done (known pass.new) }
    ensures knows { IsInformed table.now pass.new }
{
    let word = HeapWord {
        tag: Tag::Available,
        owner: 0,
        entry: e,
    };
    let place = table.draw(pass, Act::Insert(e), 1);
    store(table, pass, child, word.pack());
    free_two(table, pass, parent, child);
    place
}

// The entry changes places with its parent's, whose word this is.
fn rise(
    table: &HuntTable,
    pass: &mut HuntPass,
    parent: u32,
    child: u32,
    e: Entry,
    above: u64,
    mine: u64,
)
    requires table { IsHeapTable table.now }
    requires own { Belongs table.now pass.old }
    requires nodes { (parent ≡ child / 2) × (1 ≤ parent) × (child ≤ (limits_of table.now).capacity) }
    requires mine { mine ≡ busy_number pass.old.number e }
    requires pair { (p : IsPaired (view_of pass.old) pass.old.number e parent child above mine) ×
        (raw_of e ≤ raw_of p.other) }
    ensures stays { Stays table.now pass.old pass.new }
    ensures flies { ComesTo (view_of pass.old) (view_of pass.new) (in_flight pass.old.number e parent) }
{
    climb_to(table, pass, parent, mine);
    store(table, pass, child, above);
    free_two(table, pass, parent, child);
}

// One turn of an insert whose entry is looked for below the root: breaks with the place where the insert is done, or
// continues with the node where the seat looks for its entry next.
fn climb_once<W: Wait>(
    table: &HuntTable,
    rt: &W,
    pass: &mut HuntPass,
    child: u32,
    e: Entry,
    mine: u64,
) -> ControlFlow<u32, u32>
    requires table { IsHeapTable table.now }
    requires own { Belongs table.now pass.old }
    requires child { (2 ≤ child) × (child ≤ (limits_of table.now).capacity) }
    requires flies { (view_of pass.old).post ≡ in_flight pass.old.number e child }
    requires mine { mine ≡ busy_number pass.old.number e }
    requires few { length (known pass.old).calls < call_limit - 1 }
    ensures stays { Stays table.now pass.old pass.new }
    ensures turned { IsTurned table.now pass.old pass.new e result }
{
    let parent = child / 2;
    take_pair(table, rt, pass, parent, child, e);
    if find(table, pass, child) != mine {
        free_two(table, pass, parent, child);
        return ControlFlow::Continue(parent);
    }
    let above = look(table, pass, parent);
    let word = HeapWord::unpack(above);
    match word.tag {
        Tag::Available => {
            if e.raw() < word.entry.raw() {
                rise(table, pass, parent, child, e, above, mine);
                ControlFlow::Continue(parent)
            } else {
                ControlFlow::Break(settle(table, pass, parent, child, e))
            }
        }
        Tag::Empty | Tag::Busy => {
            free_two(table, pass, parent, child);
            ControlFlow::Continue(child)
        }
    }
}

// One turn of an insert whose entry is looked for at the root: it is Available there then, or a remover has placed
// it, and the seat has its letter.
fn end_at_root<W: Wait>(table: &HuntTable, rt: &W, pass: &mut HuntPass, e: Entry, mine: u64) -> u32
    requires table { IsHeapTable table.now }
    requires own { Belongs table.now pass.old }
    requires flies { (view_of pass.old).post ≡ in_flight pass.old.number e 1 }
    requires mine { mine ≡ busy_number pass.old.number e }
    requires few { length (known pass.old).calls < call_limit - 1 }
    ensures stays { Stays table.now pass.old pass.new }
    ensures done { IsDone table.now pass.old pass.new e result }
{
    take_node(table, rt, pass, 1);
    if find_at_root(table, pass) == mine {
        settle_root(table, pass, e)
    } else {
        free_node(table, pass, 1);
        take_over(table, pass, e)
    }
}

// Ends the climb at the root.
fn settle_root(table: &HuntTable, pass: &mut HuntPass, e: Entry) -> u32
    requires table { IsHeapTable table.now }
    requires own { Belongs table.now pass.old }
    requires root { (view_of pass.old).post ≡
        guarding_flight pass.old.number e 1 (guard 1 (busy_number pass.old.number e) (Busy pass.old.number e) ∷ []) }
    requires few { length (known pass.old).calls < call_limit - 1 }
    ensures stays { Stays table.now pass.old pass.new }
    ensures done { IsDone table.now pass.old pass.new e result }
{
    let word = HeapWord {
        tag: Tag::Available,
        owner: 0,
        entry: e,
    };
    let place = table.draw(pass, Act::Insert(e), 1);
    store(table, pass, 1, word.pack());
    free_node(table, pass, 1);
    place
}

// Takes the insert over by the letter of the remover that placed it.
fn take_over(table: &HuntTable, pass: &mut HuntPass, e: Entry) -> u32
    requires table { IsHeapTable table.now }
    requires own { Belongs table.now pass.old }
    requires missing { (view_of pass.old).post ≡ missing (in_flight pass.old.number e 1) }
    ensures stays { Stays table.now pass.old pass.new }
    ensures done { IsDone table.now pass.old pass.new e result }
{
    match table.take_letter(pass) {
        Letter::At(place) => place,
        Letter::Nothing | Letter::Back => unreachable!(),
    }
}

/// Lets the entry climb until the insert is done. It backs off where the parent's entry is in the middle of a step
/// itself.
pub(crate) fn climb<W: Wait>(
    table: &HuntTable,
    rt: &W,
    pass: &mut HuntPass,
    leaf: u32,
    e: Entry,
    mine: u64,
) -> u32
    requires table { IsHeapTable table.now }
    requires own { Belongs table.now pass.old }
    requires leaf { (1 ≤ leaf) × (leaf ≤ (limits_of table.now).capacity) }
    requires flies { (view_of pass.old).post ≡ in_flight pass.old.number e leaf }
    requires mine { mine ≡ busy_number pass.old.number e }
    requires few { length (known pass.old).calls < call_limit - 1 }
    ensures stays { Stays table.now pass.old pass.new }
    ensures done { IsDone table.now pass.old pass.new e result }
{
    let backoff = Backoff::new();
    let mut node = leaf;
    for _ in rt.forever() {
        if node == 1 {
            return end_at_root(table, rt, pass, e, mine);
        }
        match climb_once(table, rt, pass, node, e, mine) {
            ControlFlow::Break(place) => return place,
            ControlFlow::Continue(next) => {
                if next == node {
                    backoff.snooze();
                }
                node = next;
            }
        }
    }
    unreachable!()
}
