//! Removal: the root's entry is taken, and the last node's entry is put in its place and sifted down.
ghost use Rattle.std.specs.Prelude.{◌≡◌, ◌≢◌, ◌<◌, ◌≤◌, ◌+◌, ◌-◌, ◌∷◌, [], length, Contains};
ghost use Rattle.pq_words.specs.declared.entries.Entry.{Entry};
ghost use Rattle.pq_words.specs.HeapWords.{FitsHeapWord};
ghost use Rattle.pq_model.specs.declared.marks.Act.TheVariants.{RemoveBelow};
ghost use Rattle.pq_model.specs.declared.marks.Reply.TheVariants as replies;
ghost use Rattle.pq_api.specs.Limits.{call_limit};
ghost use Rattle.pq_api.specs.Answers.{IsRemoved, IsRemovedBelow, IsBelow};
ghost use Rattle.pq_seats.specs.Views.{empty_post, with_post};
ghost use Rattle.pq_seats.specs.Batches.{letters_of};
ghost use Rattle.pq_seats.specs.Laws.{history_limit};
ghost use Rattle.pq_seats.specs.Passes.{limits_of, view_of, known, Belongs, IsInformed};
ghost use Rattle.pq_hunt.specs.declared.nodes.Node.{Node};
ghost use Rattle.pq_hunt.specs.declared.nodes.Node.TheVariants.{Busy};
ghost use Rattle.pq_hunt.specs.Words.{Means, node_of};
ghost use Rattle.pq_hunt.specs.Batches.{flight_at};
ghost use Rattle.pq_hunt.specs.Marks.{IsRemoval, MayGet};
ghost use Rattle.pq_nodes.specs.Views.{guard};
ghost use Rattle.pq_hunt.specs.Views.{idle};
ghost use Rattle.pq_nodes.specs.Passes.{ComesTo, Stays};
ghost use Rattle.pq_hunt.specs.HeldPosts.{at_heap, at_hole, removing, saying, telling};
ghost use Rattle.pq_hunt.specs.Takes.{IsUsed, AreApart};
ghost use Rattle.pq_hunt.specs.Takes.{IsBarred, MayGetRoot, IsAnswered, IsPlaced, IsOpened, HasTaken};
ghost use Rattle.pq_hunt.specs.Tables.{IsHeapTable};

use crate::accesses::store_size;
use crate::insert::begin;
use crate::locks::free_heap;
use crate::sift::sift;
use crate::{HuntPass, HuntTable};
use pq_api::{Below, Removed};
use pq_model::{Act, Receipt};
use pq_nodes::{free_node, look, store, take_node};
use pq_words::{Entry, HeapWord, Letter, Tag};
use std::sync::Wait;

// The word of an Empty node.
const EMPTY: u64 = 0;

// Answers that the heap is empty, and frees its lock.
fn draw_empty(table: &HuntTable, pass: &mut HuntPass, act: Act) -> u32
    requires table { IsHeapTable table.now }
    requires own { Belongs table.now pass.old }
    requires removes { IsRemoval act }
    requires begun { (view_of pass.old).post ≡ at_heap pass.old.number 0 }
    requires few { length (known pass.old).calls < call_limit - 1 }
    ensures stays { Stays table.now pass.old pass.new }
    ensures answered { IsAnswered table.now pass.old pass.new act result replies.Empty }
{
    let place = table.draw(pass, act, 1);
    free_heap(table, pass);
    place
}

// Takes the root's lock, and reads its word. Since the heap has entries, the root has one.
fn take_root<W: Wait>(table: &HuntTable, rt: &W, pass: &mut HuntPass, size: u32) -> HeapWord
    requires table { IsHeapTable table.now }
    requires own { Belongs table.now pass.old }
    requires size { 1 ≤ size }
    requires begun { (view_of pass.old).post ≡ at_heap pass.old.number size }
    ensures stays { Stays table.now pass.old pass.new }
    ensures used { IsUsed result }
    ensures took { ComesTo (view_of pass.old) (view_of pass.new)
        (removing pass.old.number [] size size (saying 1 result ∷ [])) }
{
    take_node(table, rt, pass, 1);
    HeapWord::unpack(look(table, pass, 1))
}

// Takes the lock of the last node, which is not the root, and reads its word.
fn take_last<W: Wait>(
    table: &HuntTable,
    rt: &W,
    pass: &mut HuntPass,
    size: u32,
    root: HeapWord,
) -> HeapWord
    requires table { IsHeapTable table.now }
    requires own { Belongs table.now pass.old }
    requires size { (2 ≤ size) × (size ≤ (limits_of table.now).capacity) }
    requires begun { (view_of pass.old).post ≡ removing pass.old.number [] size size (saying 1 root ∷ []) }
    ensures stays { Stays table.now pass.old pass.new }
    ensures used { IsUsed result }
    ensures apart { AreApart (node_of root) (node_of result) }
    ensures took { ComesTo (view_of pass.old) (view_of pass.new)
        (removing pass.old.number [] size size (saying 1 root ∷ saying size result ∷ [])) }
{
    take_node(table, rt, pass, size);
    HeapWord::unpack(look(table, pass, size))
}

// How many inserts of other seats a node holds, by its word.
fn helped(word: HeapWord) -> u32
    ensures { result ≡ length (flight_at (node_of word)) }
{
    match word.tag {
        Tag::Busy => 1,
        Tag::Empty | Tag::Available => 0,
    }
}

// Leaves the owner of the insert that a node holds its letter with this place, where the node's word is Busy.
fn tell(table: &HuntTable, pass: &mut HuntPass, word: HeapWord, place: u32)
    requires table { IsHeapTable table.now }
    requires own { Belongs table.now pass.old }
    requires fits { FitsHeapWord word }
    requires owed { (o : _) (e : Entry) → node_of word ≡ Busy o e →
        Contains (view_of pass.old).post.owed (o, place + 1) }
    ensures stays { Stays table.now pass.old pass.new }
    ensures view { view_of pass.new ≡ with_post (view_of pass.old) (telling (view_of pass.old).post (node_of word)) }
{
    match word.tag {
        Tag::Busy => table.leave_letter(pass, word.owner, Letter::At(place)),
        Tag::Empty | Tag::Available => {}
    }
}

// Stores the root's new word, tells the owner of the insert that the root held its place, and frees the root's lock and
// the heap's.
fn free_root(table: &HuntTable, pass: &mut HuntPass, root: HeapWord, word: u64, place: u32)
    requires table { IsHeapTable table.now }
    requires own { Belongs table.now pass.old }
    requires fits { FitsHeapWord root }
    requires drawn { (size : _) × (stored : _) × (counted : Node) × Means counted word × ((view_of pass.old).post ≡
        removing pass.old.number (letters_of place (flight_at (node_of root))) size size
        (guard 1 stored counted ∷ [])) }
    ensures stays { Stays table.now pass.old pass.new }
    ensures rests { ComesTo (view_of pass.old) (view_of pass.new) (empty_post idle pass.old.number) }
    ensures small { (view_of pass.old).front ≤ history_limit }
{
    store(table, pass, 1, word);
    tell(table, pass, root, place);
    free_node(table, pass, 1);
    free_heap(table, pass);
}

// Answers that no key is below the limit. Where the root was Busy, its insert gets its place, and the root is Available
// then.
fn draw_above(table: &HuntTable, pass: &mut HuntPass, limit: u32, size: u32, root: HeapWord) -> u32
    requires table { IsHeapTable table.now }
    requires own { Belongs table.now pass.old }
    requires size { 1 ≤ size }
    requires root { IsUsed root }
    requires above { limit ≤ root.entry.key }
    requires post { (view_of pass.old).post ≡ removing pass.old.number [] size size (saying 1 root ∷ []) }
    requires few { length (known pass.old).calls < call_limit - 1 }
    ensures stays { Stays table.now pass.old pass.new }
    ensures answered { IsAnswered table.now pass.old pass.new (RemoveBelow limit) result replies.Above }
{
    let before = helped(root);
    let word = HeapWord {
        tag: Tag::Available,
        owner: 0,
        entry: root.entry,
    };
    let place = table.draw(pass, Act::RemoveBelow(limit), 1 + before);
    free_root(table, pass, root, word.pack(), place);
    place + before
}

// Takes the only entry.
fn draw_last(table: &HuntTable, pass: &mut HuntPass, act: Act, root: HeapWord) -> u32
    requires table { IsHeapTable table.now }
    requires own { Belongs table.now pass.old }
    requires root { IsUsed root }
    requires may { MayGet act root.entry }
    requires post { (view_of pass.old).post ≡ removing pass.old.number [] 1 1 (saying 1 root ∷ []) }
    requires few { length (known pass.old).calls < call_limit - 1 }
    ensures stays { Stays table.now pass.old pass.new }
    ensures answered { IsAnswered table.now pass.old pass.new act result (replies.Got root.entry) }
{
    let before = helped(root);
    store_size(table, pass, 0);
    let place = table.draw(pass, act, 1 + before);
    free_root(table, pass, root, EMPTY, place);
    place + before
}

// Takes the root's entry, where the last node is another: draws, empties the last node and tells the owners whose
// inserts were placed. The last node's word comes before the letters: its store shows that the places fit.
fn place_got(
    table: &HuntTable,
    pass: &mut HuntPass,
    act: Act,
    size: u32,
    root: HeapWord,
    last: HeapWord,
) -> u32
    requires table { IsHeapTable table.now }
    requires own { Belongs table.now pass.old }
    requires gets { MayGetRoot table.now pass.old act size root last }
    ensures stays { Stays table.now pass.old pass.new }
    ensures placed { IsPlaced table.now pass.old pass.new act root last size result }
{
    let before = helped(root);
    store_size(table, pass, size - 1);
    let place = table.draw(pass, act, 1 + before + helped(last));
    store(table, pass, size, EMPTY);
    tell(table, pass, root, place);
    tell(table, pass, last, place + before + 1);
    place + before
}

// Takes the root's entry, and frees the last node and the heap. The root is a hole then, with the last node's entry in
// hand.
fn draw_got(
    table: &HuntTable,
    pass: &mut HuntPass,
    act: Act,
    size: u32,
    root: HeapWord,
    last: HeapWord,
) -> u32
    requires table { IsHeapTable table.now }
    requires own { Belongs table.now pass.old }
    requires gets { MayGetRoot table.now pass.old act size root last }
    ensures stays { Stays table.now pass.old pass.new }
    ensures opened { IsOpened table.now pass.old pass.new act root.entry result last.entry }
{
    let place = place_got(table, pass, act, size, root, last);
    free_node(table, pass, size);
    free_heap(table, pass);
    place
}

/// What a remover has taken.
#[derive(Clone, Copy, Drop)]
pub(crate) enum Taken {
    /// Nothing: the heap is empty, at this place.
    Empty(u32),
    /// Nothing: no key is below the limit, at this place.
    Above(u32),
    /// The only entry, at this place.
    Last(Entry, u32),
    /// An entry, at a place. The root is a hole, with another entry in hand.
    Sift { got: Entry, place: u32, hand: Entry },
}

// The limit that keeps a removal from this entry, where there is one.
fn barring(act: Act, e: Entry) -> Option<u32>
    requires removes { IsRemoval act }
    ensures barred { IsBarred act e result }
{
    match act {
        Act::RemoveBelow(limit) => { if limit <= e.key { Some(limit) } else { None } }
        Act::Remove | Act::Insert(_) => None,
    }
}

// Takes the least entry, where the act may have it.
fn take<W: Wait>(table: &HuntTable, rt: &W, pass: &mut HuntPass, act: Act) -> Taken
    requires table { IsHeapTable table.now }
    requires own { Belongs table.now pass.old }
    requires removes { IsRemoval act }
    requires rests { (view_of pass.old).post ≡ empty_post idle pass.old.number }
    requires few { length (known pass.old).calls < call_limit - 1 }
    ensures stays { Stays table.now pass.old pass.new }
    ensures taken { HasTaken table.now pass.old pass.new act result }
{
    let size = begin(table, rt, pass);
    if size == 0 {
        return Taken::Empty(draw_empty(table, pass, act));
    }
    let root = take_root(table, rt, pass, size);
    match barring(act, root.entry) {
        Some(limit) => Taken::Above(draw_above(table, pass, limit, size, root)),
        None => take_entry(table, rt, pass, act, size, root),
    }
}

// Takes the root's entry, which the act may have. The root's lock is held.
fn take_entry<W: Wait>(
    table: &HuntTable,
    rt: &W,
    pass: &mut HuntPass,
    act: Act,
    size: u32,
    root: HeapWord,
) -> Taken
    requires table { IsHeapTable table.now }
    requires own { Belongs table.now pass.old }
    requires size { (1 ≤ size) × (size ≤ (limits_of table.now).capacity) }
    requires root { IsUsed root }
    requires may { MayGet act root.entry }
    requires post { (view_of pass.old).post ≡ removing pass.old.number [] size size (saying 1 root ∷ []) }
    requires few { length (known pass.old).calls < call_limit - 1 }
    ensures stays { Stays table.now pass.old pass.new }
    ensures taken { HasTaken table.now pass.old pass.new act result }
{
    if size == 1 {
        return Taken::Last(root.entry, draw_last(table, pass, act, root));
    }
    let last = take_last(table, rt, pass, size, root);
    let place = draw_got(table, pass, act, size, root, last);
    Taken::Sift {
        got: root.entry,
        place,
        hand: last.entry,
    }
}

/// Takes the least entry out of the heap. Calls `below_root` wherever its hole has come below the root.
pub(crate) fn remove<W: Wait, F: FnMut()>(
    table: &HuntTable,
    below_root: F,
    rt: &W,
    pass: &mut HuntPass,
) -> Removed
    requires gate { F.IsAlwaysCallable below_root }
    requires table { IsHeapTable table.now }
    requires own { Belongs table.now pass.old }
    requires rests { (view_of pass.old).post ≡ empty_post idle pass.old.number }
    requires few { length (known pass.old).calls < call_limit - 1 }
    ensures stays { Stays table.now pass.old pass.new }
    ensures rests { (view_of pass.new).post ≡ empty_post idle pass.old.number }
    ensures call { IsRemoved (known pass.old) result (known pass.new) }
    ensures knows { IsInformed table.now pass.new }
{
    match take(table, rt, pass, Act::Remove) {
        Taken::Empty(place) => Removed::Empty(Receipt { place }),
        Taken::Above(_) => unreachable!(),
        Taken::Last(got, place) => Removed::Got(got, Receipt { place }),
        Taken::Sift { got, place, hand } => {
            sift(table, below_root, rt, pass, hand);
            Removed::Got(got, Receipt { place })
        }
    }
}

/// The same, where its key is below the limit.
pub(crate) fn remove_below<W: Wait, F: FnMut()>(
    table: &HuntTable,
    below_root: F,
    rt: &W,
    pass: &mut HuntPass,
    limit: u32,
) -> Below
    requires gate { F.IsAlwaysCallable below_root }
    requires table { IsHeapTable table.now }
    requires own { Belongs table.now pass.old }
    requires rests { (view_of pass.old).post ≡ empty_post idle pass.old.number }
    requires few { length (known pass.old).calls < call_limit - 1 }
    ensures stays { Stays table.now pass.old pass.new }
    ensures rests { (view_of pass.new).post ≡ empty_post idle pass.old.number }
    ensures call { IsRemovedBelow (known pass.old) limit result (known pass.new) }
    ensures key { IsBelow limit result }
    ensures knows { IsInformed table.now pass.new }
{
    match take(table, rt, pass, Act::RemoveBelow(limit)) {
        Taken::Empty(place) => Below::Empty(Receipt { place }),
        Taken::Above(place) => Below::Above(Receipt { place }),
        Taken::Last(got, place) => Below::Got(got, Receipt { place }),
        Taken::Sift { got, place, hand } => {
            sift(table, below_root, rt, pass, hand);
            Below::Got(got, Receipt { place })
        }
    }
}
