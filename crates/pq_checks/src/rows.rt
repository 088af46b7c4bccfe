//! Rows of calls with one seat, whose answers are worked by hand.
ghost use Rattle.std.specs.Prelude.{◌<◌, ◌≤◌, length};
ghost use Rattle.pq_words.specs.Limits.{key_limit, id_limit};
ghost use Rattle.pq_checks.specs.Limits.{check_limit};

use crate::answers::answers_are;
use crate::calls::{CheckFault, leaves};
use pq_api::{BoundedQueue, Open};
use pq_model::{Act, Reply};
use pq_words::Entry;
use std::alloc::Global;
use std::sync::Wait;

const DONE: Reply = Reply::Done;

const EMPTY: Reply = Reply::Empty;

const FULL: Reply = Reply::Full;

const ABOVE: Reply = Reply::Above;

const REMOVE: Act = Act::Remove;

fn entry(key: u32, id: u32) -> Entry
    requires key { key < key_limit }
    requires id { id < id_limit }
{
    Entry { key, id }
}

fn insert(key: u32, id: u32) -> Act
    requires key { key < key_limit }
    requires id { id < id_limit }
{
    Act::Insert(Entry { key, id })
}

fn below(limit: u32) -> Act {
    Act::RemoveBelow(limit)
}

fn got(key: u32, id: u32) -> Reply
    requires key { key < key_limit }
    requires id { id < id_limit }
{
    Reply::Got(Entry { key, id })
}

/// Calls of one seat: what a new queue of this capacity is asked, what it is to answer, and what is to be left at the
/// end, in rising order.
#[derive(Clone, Copy)]
pub struct Row<'a> {
    pub capacity: u32,
    pub acts: &'a [Act],
    pub replies: &'a [Reply],
    pub left: &'a [Entry],
}

/// Runs a row on a new queue of one seat, and closes it.
pub fn row_is_answered<R: Wait + Sync, Q: BoundedQueue>(
    rt: &R,
    alloc: Global,
    gate: Q::Gate,
    row: Row,
) -> Result<(), CheckFault>
    requires room { (1 ≤ row.capacity) × (row.capacity ≤ Q.CAPACITY) }
    requires few { length row.acts.now < check_limit }
{
    let made = answers_are::<R, Q>(rt, alloc, gate, row.capacity, row.acts, row.replies)?;
    leaves(alloc, made, row.acts.len() as u32, row.left)
}

/// Runs each of the rows of every queue, whose capacities are at most 4, and gives the number of their calls. Where one
/// was answered otherwise, gives the number of the first such row, with what was amiss.
pub fn one_seat_rows<R: Wait + Sync, Q: BoundedQueue<Gate = Open>>(
    rt: &R,
    alloc: Global,
) -> Result<usize, (u32, CheckFault)>
    requires room { 4 ≤ Q.CAPACITY }
{
    let last = entry(67_108_863, 4_194_303);
    // the capacity, the acts, the replies, and what is left
    let rows: [(u32, &[Act], &[Reply], &[Entry]); 8] = [
        (1, &[], &[], &[]),
        (
            4,
            &[insert(5, 1), insert(3, 2), REMOVE, REMOVE, REMOVE],
            &[DONE, DONE, got(3, 2), got(5, 1), EMPTY],
            &[],
        ),
        (
            4,
            &[insert(7, 3), insert(7, 1), insert(7, 2), REMOVE],
            &[DONE, DONE, DONE, got(7, 1)],
            &[entry(7, 2), entry(7, 3)],
        ),
        (
            1,
            &[insert(2, 0), insert(1, 0), REMOVE],
            &[DONE, FULL, got(2, 0)],
            &[],
        ),
        (
            2,
            &[Act::Insert(last), insert(0, 0), below(0), below(1)],
            &[DONE, DONE, ABOVE, got(0, 0)],
            &[last],
        ),
        (
            4,
            &[insert(5, 1), below(5), below(6), below(6)],
            &[DONE, ABOVE, got(5, 1), EMPTY],
            &[],
        ),
        (
            1,
            &[
                below(0),
                Act::Insert(last),
                below(67_108_863),
                below(67_108_864),
            ],
            &[EMPTY, DONE, ABOVE, Reply::Got(last)],
            &[],
        ),
        (
            2,
            &[
                insert(4, 1),
                insert(4, 0),
                insert(9, 9),
                below(4),
                below(5),
                below(5),
                below(5),
            ],
            &[DONE, DONE, FULL, ABOVE, got(4, 0), got(4, 1), EMPTY],
            &[],
        ),
    ];
    let mut number = 0;
    let mut calls = 0_usize;
    for (capacity, acts, replies, left) in rows {
        let row = Row {
            capacity,
            acts,
            replies,
            left,
        };
        row_is_answered::<R, Q>(rt, alloc, Open, row).map_err(|fault| (number, fault))?;
        number += 1;
        calls = calls.saturating_add(acts.len());
    }
    Ok(calls)
}
