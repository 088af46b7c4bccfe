//! A call of the heap that is held in the middle of its work, while the other seat's calls answer or have to wait.
ghost use Rattle.std.specs.Prelude.{◌≡◌, ◌<◌, ◌≤◌, length, IfOk};
ghost use Rattle.pq_words.specs.Limits.{key_limit};
ghost use Rattle.pq_model.specs.Passes.{lanes};
ghost use Rattle.pq_lanes.specs.Lanes.{on_tapes, AreNumbered};

use pq_api::{BoundedQueue, Point, SharedQueue};
use pq_checks::{
    Aside, CheckFault, HeldCall, HeldFault, LateHold, Made, Nothing, Wanted, audited,
    beside_a_held_call, leaves,
};
use pq_hunt::HuntHeap;
use pq_lanes::Lanes;
use pq_model::{Act, Call, Reply};
use pq_words::Entry;
use std::alloc::Global;
use std::sync::Wait;
use std::thread::Threads;

const TURNS: u32 = 10_000_000;

const DONE: Reply = Reply::Done;

fn entry(key: u32) -> Entry
    requires { key < key_limit }
{
    Entry { key, id: 0 }
}

fn wanted(act: Act, place: u32, reply: Reply) -> Wanted {
    Wanted {
        act,
        place: Some(place),
        reply: Some(reply),
    }
}

fn insert(key: u32, place: u32) -> Wanted
    requires { key < key_limit }
{
    wanted(Act::Insert(entry(key)), place, DONE)
}

fn got(key: u32, place: u32) -> Wanted
    requires { key < key_limit }
{
    wanted(Act::Remove, place, Reply::Got(entry(key)))
}

fn got_below(limit: u32, key: u32, place: u32) -> Wanted
    requires { key < key_limit }
{
    wanted(Act::RemoveBelow(limit), place, Reply::Got(entry(key)))
}

fn above(limit: u32, place: u32) -> Wanted {
    wanted(Act::RemoveBelow(limit), place, Reply::Above)
}

// A row whose first seat holds, and whose other seat's calls all answer meanwhile.
fn row<'a>(before: &'a [Wanted], held: Wanted, beside: &'a [Wanted]) -> HeldCall<'a> {
    HeldCall {
        capacity: 16,
        before,
        first_is_held: true,
        held,
        most: 1,
        beside,
        waits: None,
    }
}

// A row whose held call the other seat's call has to wait for.
fn waiting_row<'a>(before: &'a [Wanted], held: Wanted, waits: Wanted) -> HeldCall<'a> {
    HeldCall {
        waits: Some(waits),
        ..row(before, held, &[])
    }
}

// No row here has as many calls as this before or beside the held one, or tries to hold one so often.
const MOST_CALLS: usize = 100;

// Runs a row that has few calls.
fn run_held<R: Threads + Wait + Sync, Q: BoundedQueue, A: Aside<Q>>(
    rt: &R,
    alloc: Global,
    gate: Q::Gate,
    late: &LateHold,
    row: &HeldCall,
    aside: &A,
) -> Result<(Q, Lanes<Q::Pass>), HeldFault>
    requires seats { 2 ≤ Q.SEATS }
    ensures own { IfOk result (λ r. Q.belongs r.0 r.1.pass) }
    ensures limits { IfOk result (λ r. (Q.capacity_of r.0 ≡ row.now.capacity) × (Q.seats_of r.0 ≡ 2)) }
    ensures tapes { IfOk result (λ r. on_tapes r.1.tapes.items ≡ lanes (Q.known r.1.pass)) }
    ensures numbered { IfOk result (λ r. AreNumbered 1 (lanes (Q.known r.1.pass)) × (length r.1.tapes.items ≡ 2)) }
    ensures few { IfOk result (λ _. (length row.now.before.now < 100) × (length row.now.beside.now < 100)) }
{
    if row.capacity < 2
        || row.capacity > Q::CAPACITY
        || row.before.len() >= MOST_CALLS
        || row.beside.len() >= MOST_CALLS
        || row.most as usize >= MOST_CALLS
    {
        return Err(HeldFault::NotHeld);
    }
    beside_a_held_call::<R, Q, A>(rt, alloc, gate, late, row, aside)
}

// Runs a row on a heap and closes it: what was amiss with the calls, and then with what is left.
fn run<R: Threads + Wait + Sync>(
    rt: &R,
    alloc: Global,
    late: &LateHold,
    row: &HeldCall,
    left: &[Entry],
) -> Result<Result<(), CheckFault>, HeldFault> {
    let (queue, lanes) = run_held::<R, HuntHeap<&LateHold>, Nothing>(
        rt, alloc, late, late, row, &Nothing,
    )?;
    let made = Made {
        queue,
        pass: lanes.pass,
    };
    let calls = (row.before.len() + row.beside.len() + 1) as u32 + u32::from(row.waits.is_some());
    Ok(leaves(alloc, made, calls, left))
}

#[test]
fn inserts_are_placed_by_removers(rt: HostRuntime) {
    // an empty heap; then one with an entry, where the held insert stands at the last node
    let before = [insert(5, 0)];
    let (one, five, over) = ([got(1, 1)], [got(5, 1)], [above(3, 1)]);
    let rows: [(HeldCall, &[Entry]); 3] = [
        (row(&[], insert(1, 0), &one), &[]),
        (
            HeldCall {
                first_is_held: false,
                ..row(&before, insert(1, 2), &five)
            },
            &[entry(1)],
        ),
        (row(&[], insert(5, 0), &over), &[entry(5)]),
    ];
    for (row, left) in rows {
        let late = LateHold::new(Point::HeapBusy, TURNS);
        let row = HeldCall { capacity: 4, ..row };
        assert_eq!(rt; run(&rt, rt.alloc(), &late, &row, left), Ok(Ok(())));
    }
}

#[test]
fn an_insert_is_done_while_a_hole_stands(rt: HostRuntime) {
    let before = [
        insert(1, 0),
        insert(2, 1),
        insert(3, 2),
        insert(4, 3),
        insert(5, 4),
        insert(6, 5),
        insert(7, 6),
    ];
    let left = [
        entry(2),
        entry(3),
        entry(4),
        entry(5),
        entry(6),
        entry(7),
        entry(8),
    ];
    for held in [got(1, 7), got_below(2, 1, 7)] {
        let late = LateHold::new(Point::HeapSift, TURNS);
        let beside = [insert(8, 8)];
        let row = row(&before, held, &beside);
        assert_eq!(rt; run(&rt, rt.alloc(), &late, &row, &left), Ok(Ok(())));
    }
}

// The hole of the held removal stands at node 4. Another removal takes the root, and its hole goes to node 3.
#[test]
fn removals_go_on_while_a_hole_stands(rt: HostRuntime) {
    let before = [
        insert(1, 0),
        insert(2, 1),
        insert(3, 2),
        insert(5, 3),
        insert(6, 4),
        insert(7, 5),
        insert(8, 6),
    ];
    let left = [entry(3), entry(5), entry(6), entry(7), entry(8)];
    let rows = [
        (got(1, 7), got(2, 9)),
        (got(1, 7), got_below(3, 2, 9)),
        (got_below(2, 1, 7), got(2, 9)),
    ];
    for (held, other) in rows {
        let late = LateHold::behind(1, Point::HeapSift, TURNS);
        let beside = [above(2, 8), other];
        let row = row(&before, held, &beside);
        assert_eq!(rt; run(&rt, rt.alloc(), &late, &row, &left), Ok(Ok(())));
    }
}

// The hole stands at node 2, and the insert comes to node 4 below it: it has to wait for the hole.
#[test]
fn an_insert_waits_for_a_hole_on_its_way(rt: HostRuntime) {
    let before = [
        insert(1, 0),
        insert(2, 1),
        insert(3, 2),
        insert(4, 3),
        insert(5, 4),
        insert(6, 5),
        insert(7, 6),
        insert(8, 7),
    ];
    let left = [
        entry(0),
        entry(2),
        entry(3),
        entry(4),
        entry(5),
        entry(6),
        entry(7),
        entry(8),
    ];
    for held in [got(1, 8), got_below(2, 1, 8)] {
        let late = LateHold::new(Point::HeapSift, TURNS);
        let row = waiting_row(&before, held, insert(0, 9));
        assert_eq!(rt; run(&rt, rt.alloc(), &late, &row, &left), Ok(Ok(())));
    }
}

// A removal is made until one is held, which is the second: at the fourth place where a hole has come below the root.
#[test]
fn a_call_that_is_held_on_its_way_leaves_a_legal_history(rt: HostRuntime) {
    let before = [
        insert(1, 0),
        insert(2, 1),
        insert(3, 2),
        insert(4, 3),
        insert(5, 4),
        insert(6, 5),
        insert(7, 6),
        insert(8, 7),
    ];
    let beside = [Wanted {
        act: Act::Insert(entry(0)),
        place: None,
        reply: Some(DONE),
    }];
    let held = Wanted {
        act: Act::Remove,
        place: None,
        reply: None,
    };
    let late = LateHold::behind(3, Point::HeapSift, TURNS);
    let row = HeldCall {
        most: 8,
        ..row(&before, held, &beside)
    };
    let checked = run_held::<HostRuntime, HuntHeap<&LateHold>, Nothing>(
        &rt,
        rt.alloc(),
        &late,
        &late,
        &row,
        &Nothing,
    );
    let Ok((queue, lanes)) = checked else {
        panic!(rt; "a call is held")
    };
    let Ok(history) = audited(rt.alloc(), queue, row.capacity, lanes) else {
        panic!(rt; "the history is legal")
    };
    assert_eq!(rt; history.marks.len(), 11);
    assert_eq!(rt; history.left, 7);
}

// A look that is to find this many calls.
#[derive(Drop)]
struct Finds(u32);

impl<Q: SharedQueue> Aside<Q> for Finds {
    fn goes<R: Wait + Sync>(&self, _rt: &R, queue: &Q, pass: &mut Q::Pass) -> bool {
        queue.look(pass) == self.0
    }
}

// What is amiss where a look beside a held removal is to find so many calls.
fn amiss_beside<R: Threads + Wait + Sync>(rt: &R, alloc: Global, calls: u32) -> Option<HeldFault> {
    let before = [insert(1, 0), insert(2, 1), insert(3, 2)];
    let late = LateHold::new(Point::HeapSift, TURNS);
    let row = row(&before, got(1, 3), &[]);
    let aside = Finds(calls);
    match run_held::<R, HuntHeap<&LateHold>, Finds>(rt, alloc, &late, &late, &row, &aside) {
        Ok(_) => None,
        Err(fault) => Some(fault),
    }
}

#[test]
fn what_is_done_besides_is_done_while_a_call_is_held(rt: HostRuntime) {
    for (calls, wanted) in [(4, None), (3, Some(HeldFault::Aside))] {
        assert_eq!(rt; amiss_beside(&rt, rt.alloc(), calls), wanted);
    }
}

// What was answered otherwise than a wrong row wants.
fn answered(act: Act, place: u32, reply: Reply) -> Result<Result<(), CheckFault>, HeldFault> {
    Err(HeldFault::Answer(Call { place, act, reply }))
}

#[test]
fn the_check_finds_what_is_amiss(rt: HostRuntime) {
    let before = [insert(1, 0), insert(2, 1), insert(3, 2)];
    let two = [entry(2), entry(3)];
    let (late_insert, early_removal) = ([insert(1, 1)], [got(1, 0)]);
    let busy = row(&[], insert(1, 0), &[]);
    let sift = row(&before, got(1, 3), &[]);
    let rows = [
        // other answers of a call before, of the held one and of one beside it
        (
            row(&late_insert, insert(2, 1), &[]),
            Point::HeapBusy,
            answered(Act::Insert(entry(1)), 0, DONE),
        ),
        (
            row(&[], insert(1, 1), &[]),
            Point::HeapBusy,
            answered(Act::Insert(entry(1)), 0, DONE),
        ),
        (
            row(&before, got(2, 3), &[]),
            Point::HeapSift,
            answered(Act::Remove, 3, Reply::Got(entry(1))),
        ),
        (
            row(&[], insert(1, 0), &early_removal),
            Point::HeapBusy,
            answered(Act::Remove, 1, Reply::Got(entry(1))),
        ),
        // other entries left
        (busy, Point::HeapBusy, Ok(Err(CheckFault::Left))),
        // a call that has to wait for nothing
        (
            waiting_row(&before, got(1, 3), above(2, 4)),
            Point::HeapSift,
            Err(HeldFault::Early),
        ),
        (sift, Point::HeapSift, Ok(Ok(()))),
    ];
    for (row, point, wanted) in rows {
        let late = LateHold::new(point, TURNS);
        assert_eq!(rt; run(&rt, rt.alloc(), &late, &row, &two), wanted);
    }
}

// No call comes to the point; and a call that has to wait for the held one is said to answer beside it.
#[test]
fn the_check_ends_by_its_turns(rt: HostRuntime) {
    let before = [
        insert(1, 0),
        insert(2, 1),
        insert(3, 2),
        insert(4, 3),
        insert(5, 4),
        insert(6, 5),
        insert(7, 6),
        insert(8, 7),
    ];
    let none = row(&before, above(1, 8), &[]);
    let late = LateHold::new(Point::HeapSift, 1_000);
    assert_eq!(rt;
        run(&rt, rt.alloc(), &late, &none, &[]),
        Err(HeldFault::NotHeld)
    );
    let beside = [insert(0, 9)];
    let waits = row(&before, got(1, 8), &beside);
    let late = LateHold::new(Point::HeapSift, 1_000_000);
    assert_eq!(rt;
        run(&rt, rt.alloc(), &late, &waits, &[]),
        Err(HeldFault::Spent)
    );
}
