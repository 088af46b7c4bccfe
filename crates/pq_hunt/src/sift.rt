//! How a remover sifts its hole down, until the entry that it has in hand fills it.
ghost use Rattle.std.specs.Prelude.{◌≡◌, ◌<◌, ◌≤◌, ◌+◌, ◌*◌, ℕ, List, [], ◌∷◌};
ghost use Rattle.pq_seats.specs.Passes.{limits_of, view_of, Belongs};
ghost use Rattle.pq_seats.specs.Views.{empty_post};
ghost use Rattle.pq_hunt.specs.declared.nodes.Node.{Node};
ghost use Rattle.pq_hunt.specs.declared.nodes.Node.TheVariants.{Hole};
ghost use Rattle.pq_hunt.specs.Guards.{Guard};
ghost use Rattle.pq_hunt.specs.Order.{MayStandOver};
ghost use Rattle.pq_hunt.specs.Words.{Means};
ghost use Rattle.pq_nodes.specs.Views.{guard};
ghost use Rattle.pq_hunt.specs.Views.{idle};
ghost use Rattle.pq_nodes.specs.Passes.{ComesTo, Stays};
ghost use Rattle.pq_hunt.specs.HeldPosts.{IsHolding, Leaves};
ghost use Rattle.pq_hunt.specs.Sifting.{IsRank, CanFillFirst, CanRiseLeft, AtTwo};
ghost use Rattle.pq_hunt.specs.Sifting.{IsLeast, Sifted};
ghost use Rattle.pq_hunt.specs.HeldPosts.{at_hole};
ghost use Rattle.pq_hunt.specs.Tables.{IsHeapTable};

use crate::accesses::fill;
use crate::layout::word_count;
use crate::{HuntPass, HuntTable};
use pq_nodes::{NODE_WORDS, free_node, look, raise_second, raise_third, take_node};
use pq_words::{Entry, HeapWord, RAW_LIMIT, Tag};
use std::sync::Wait;

/// Sifts the hole at the root down, and fills it with the entry in hand. The seat holds the hole's lock alone at first,
/// and none then. Calls `below_root` wherever the hole has come below the root. O(log n) turns.
pub(crate) fn sift<W: Wait, F: FnMut()>(
    table: &HuntTable,
    mut below_root: F,
    rt: &W,
    pass: &mut HuntPass,
    hand: Entry,
)
    requires table { IsHeapTable table.now }
    requires own { Belongs table.now pass.old }
    requires post { (word : ℕ) × ((view_of pass.old).post ≡ at_hole pass.old.number 1 word hand) }
    requires gate { F.IsAlwaysCallable below_root }
    ensures stays { Stays table.now pass.old pass.new }
    ensures done { ComesTo (view_of pass.old) (view_of pass.new) (empty_post idle pass.old.number) }
{
    let capacity = capacity_of(table);
    let mut hole = 1;
    for _ in rt.forever() {
        hole = sift_once(table, rt, pass, capacity, hole, hand);
        if hole == 0 {
            return;
        }
        below_root();
    }
    unreachable!()
}

// How many nodes the table has.
fn capacity_of(table: &HuntTable) -> u32
    requires table { IsHeapTable table.now }
    ensures { result ≡ (limits_of table.now).capacity }
{
    ((table.words - word_count(0)) / NODE_WORDS as usize) as u32
}

// One turn: the next hole, or 0 where the entry in hand fills this one.
fn sift_once<W: Wait>(
    table: &HuntTable,
    rt: &W,
    pass: &mut HuntPass,
    capacity: u32,
    hole: u32,
    hand: Entry,
) -> u32
    requires table { IsHeapTable table.now }
    requires own { Belongs table.now pass.old }
    requires capacity { capacity ≡ (limits_of table.now).capacity }
    requires hole { (1 ≤ hole) × (hole ≤ capacity) }
    requires holds { (word : ℕ) × IsHolding (view_of pass.old) (guard hole word (Hole hand) ∷ []) }
    ensures stays { Stays table.now pass.old pass.new }
    ensures sifted { Sifted capacity (view_of pass.old) (view_of pass.new) hole hand result }
{
    if capacity / 2 < hole {
        fill_hole(table, pass, hole, hand);
        0
    } else if 2 * hole == capacity {
        sift_one(table, rt, pass, hole, hand)
    } else {
        sift_two(table, rt, pass, hole, hand)
    }
}

// The turn at a hole with a left child alone.
fn sift_one<W: Wait>(table: &HuntTable, rt: &W, pass: &mut HuntPass, hole: u32, hand: Entry) -> u32
    requires table { IsHeapTable table.now }
    requires own { Belongs table.now pass.old }
    requires hole { (1 ≤ hole) × (2 * hole ≡ (limits_of table.now).capacity) }
    requires holds { (word : ℕ) × IsHolding (view_of pass.old) (guard hole word (Hole hand) ∷ []) }
    ensures stays { Stays table.now pass.old pass.new }
    ensures sifted { Sifted (limits_of table.now).capacity (view_of pass.old) (view_of pass.new) hole hand result }
{
    let left = 2 * hole;
    take_node(table, rt, pass, left);
    let word = look(table, pass, left);
    if rank(word) < hand.raw() {
        rise_left(table, pass, hole, word, hand);
        left
    } else {
        fill_hole(table, pass, hole, hand);
        free_node(table, pass, left);
        0
    }
}

// The turn at a hole with two children.
fn sift_two<W: Wait>(table: &HuntTable, rt: &W, pass: &mut HuntPass, hole: u32, hand: Entry) -> u32
    requires table { IsHeapTable table.now }
    requires own { Belongs table.now pass.old }
    requires hole { (1 ≤ hole) × (2 * hole + 1 ≤ (limits_of table.now).capacity) }
    requires holds { (word : ℕ) × IsHolding (view_of pass.old) (guard hole word (Hole hand) ∷ []) }
    ensures stays { Stays table.now pass.old pass.new }
    ensures sifted { Sifted (limits_of table.now).capacity (view_of pass.old) (view_of pass.new) hole hand result }
{
    take_node(table, rt, pass, 2 * hole);
    take_node(table, rt, pass, 2 * hole + 1);
    let left = look(table, pass, 2 * hole);
    let right = look(table, pass, 2 * hole + 1);
    choose(table, pass, hole, hand, left, right)
}

// The end of that turn, by the words of the two children: the lesser child's word goes up, the left one's on a tie,
// where its entry is below that in hand.
fn choose(
    table: &HuntTable,
    pass: &mut HuntPass,
    hole: u32,
    hand: Entry,
    left: u64,
    right: u64,
) -> u32
    requires table { IsHeapTable table.now }
    requires own { Belongs table.now pass.old }
    requires hole { (1 ≤ hole) × (2 * hole + 1 ≤ (limits_of table.now).capacity) }
    requires at { (l : Node) × (r : Node) × AtTwo (view_of pass.old) hole hand left l right r }
    ensures stays { Stays table.now pass.old pass.new }
    ensures sifted { Sifted (limits_of table.now).capacity (view_of pass.old) (view_of pass.new) hole hand result }
{
    let left_rank = rank(left);
    let right_rank = rank(right);
    let in_hand = hand.raw();
    if in_hand <= left_rank && in_hand <= right_rank {
        fill_two(table, pass, hole, hand);
        0
    } else if left_rank <= right_rank {
        rise_left_of_two(table, pass, hole, left, hand);
        2 * hole
    } else {
        rise_right(table, pass, hole, right, hand);
        2 * hole + 1
    }
}

// A number that children are compared by: that of the entry, or one above all where the word is Empty.
fn rank(word: u64) -> u64
    requires { (counted : Node) × Means counted word }
    ensures { (counted : Node) → Means counted word → IsRank counted result }
{
    match HeapWord::unpack(word).tag {
        Tag::Empty => RAW_LIMIT,
        // the number of the entry, which a word has in its low bits: to unpack the entry and pack it again costs more
        _ => word % RAW_LIMIT,
    }
}

// Fills the hole with the entry in hand, and frees it.
fn fill_hole(table: &HuntTable, pass: &mut HuntPass, hole: u32, hand: Entry)
    requires table { IsHeapTable table.now }
    requires own { Belongs table.now pass.old }
    requires hole { (1 ≤ hole) × (hole ≤ (limits_of table.now).capacity) }
    requires fill { (others : List Guard) ×
        CanFillFirst (limits_of table.now).capacity (view_of pass.old) hole hand others }
    ensures stays { Stays table.now pass.old pass.new }
    ensures filled { (others : List Guard) →
        CanFillFirst (limits_of table.now).capacity (view_of pass.old) hole hand others →
        Leaves (view_of pass.old) (view_of pass.new) others }
{
    let word = HeapWord {
        tag: Tag::Available,
        owner: 0,
        entry: hand,
    }
    .pack();
    fill(table, pass, hole, word);
    free_node(table, pass, hole);
}

// Fills the hole, and frees it and both children.
fn fill_two(table: &HuntTable, pass: &mut HuntPass, hole: u32, hand: Entry)
    requires table { IsHeapTable table.now }
    requires own { Belongs table.now pass.old }
    requires hole { (1 ≤ hole) × (2 * hole + 1 ≤ (limits_of table.now).capacity) }
    requires at { (m : ℕ) × (l : Node) × (n : ℕ) × (r : Node) × AtTwo (view_of pass.old) hole hand m l n r
        × MayStandOver hand l × MayStandOver hand r }
    ensures stays { Stays table.now pass.old pass.new }
    ensures filled { Leaves (view_of pass.old) (view_of pass.new) [] }
{
    fill_hole(table, pass, hole, hand);
    free_node(table, pass, 2 * hole);
    free_node(table, pass, 2 * hole + 1);
}

// Moves the left child's word up into the hole, and frees the hole. The left child is the hole then.
fn rise_left(table: &HuntTable, pass: &mut HuntPass, hole: u32, word: u64, hand: Entry)
    requires table { IsHeapTable table.now }
    requires own { Belongs table.now pass.old }
    requires hole { (1 ≤ hole) × (hole ≤ (limits_of table.now).capacity) }
    requires rise { (left : Node) × (others : List Guard) ×
        CanRiseLeft (limits_of table.now).capacity (view_of pass.old) hole word hand left others }
    ensures stays { Stays table.now pass.old pass.new }
    ensures risen { (left : Node) (others : List Guard) →
        CanRiseLeft (limits_of table.now).capacity (view_of pass.old) hole word hand left others →
        Leaves (view_of pass.old) (view_of pass.new) (guard (2 * hole) word (Hole hand) ∷ others) }
{
    raise_second(table, pass, hole, word);
    free_node(table, pass, hole);
}

// The same where the right child is held too, which is freed.
fn rise_left_of_two(table: &HuntTable, pass: &mut HuntPass, hole: u32, word: u64, hand: Entry)
    requires table { IsHeapTable table.now }
    requires own { Belongs table.now pass.old }
    requires hole { (1 ≤ hole) × (2 * hole + 1 ≤ (limits_of table.now).capacity) }
    requires at { (l : Node) × (n : ℕ) × (r : Node) × AtTwo (view_of pass.old) hole hand word l n r
        × IsLeast hand l r }
    ensures stays { Stays table.now pass.old pass.new }
    ensures risen { Leaves (view_of pass.old) (view_of pass.new) (guard (2 * hole) word (Hole hand) ∷ []) }
{
    rise_left(table, pass, hole, word, hand);
    free_node(table, pass, 2 * hole + 1);
}

// Moves the right child's word up into the hole, and frees the hole and the left child. The right child is the hole
// then.
fn rise_right(table: &HuntTable, pass: &mut HuntPass, hole: u32, word: u64, hand: Entry)
    requires table { IsHeapTable table.now }
    requires own { Belongs table.now pass.old }
    requires hole { (1 ≤ hole) × (2 * hole + 1 ≤ (limits_of table.now).capacity) }
    requires at { (m : ℕ) × (l : Node) × (r : Node) × AtTwo (view_of pass.old) hole hand m l word r
        × IsLeast hand r l }
    ensures stays { Stays table.now pass.old pass.new }
    ensures risen { Leaves (view_of pass.old) (view_of pass.new) (guard (2 * hole + 1) word (Hole hand) ∷ []) }
{
    raise_third(table, pass, hole, word);
    free_node(table, pass, hole);
    free_node(table, pass, 2 * hole);
}
