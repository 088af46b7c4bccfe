//! Histories and the verdicts that are wanted.
ghost use Rattle.std.specs.Prelude.{◌<◌, ◌≤◌};
ghost use Rattle.pq_words.specs.Limits.{key_limit, id_limit};
ghost use Rattle.pq_model.specs.Limits.{max_seats, max_capacity};

use pq_model::{Act, Mark, Reply, Verdict, audit};
use pq_words::Entry;
use std::alloc::{AllocError, Global};

const DONE: Reply = Reply::Done;

const EMPTY: Reply = Reply::Empty;

const FULL: Reply = Reply::Full;

const ABOVE: Reply = Reply::Above;

fn insert(key: u32, id: u32, reply: Reply) -> Mark
    requires key { key < key_limit }
    requires id { id < id_limit }
{
    Mark {
        seat: 1,
        act: Act::Insert(Entry { key, id }),
        reply,
    }
}

fn remove(reply: Reply) -> Mark {
    Mark {
        seat: 1,
        act: Act::Remove,
        reply,
    }
}

fn got(key: u32, id: u32) -> Mark
    requires key { key < key_limit }
    requires id { id < id_limit }
{
    remove(Reply::Got(Entry { key, id }))
}

fn below(limit: u32, reply: Reply) -> Mark {
    Mark {
        seat: 1,
        act: Act::RemoveBelow(limit),
        reply,
    }
}

// The verdict, where the marks are all of seat 1 and memory sufficed.
fn verdict_of(alloc: Global, marks: &[Mark], seats: u32, capacity: u32) -> Option<Verdict>
    requires seats { (1 ≤ seats) × (seats ≤ max_seats) }
    requires capacity { (1 ≤ capacity) × (capacity ≤ max_capacity) }
{
    if marks.len() < 1 << 30 && marks.iter().all(|mark| mark.seat == 1) {
        audit(alloc, marks, seats, capacity).ok()
    } else {
        None
    }
}

#[test]
fn histories_have_their_verdicts(rt: HostRuntime) {
    let legal = Verdict::Legal { left: 0 };
    let out_of_order = [insert(5, 1, DONE), insert(3, 2, DONE), got(5, 1), got(3, 2)];
    let in_order = [
        insert(5, 1, DONE),
        insert(3, 2, DONE),
        got(3, 2),
        got(5, 1),
        remove(EMPTY),
    ];
    let full = [insert(2, 0, DONE), insert(1, 0, FULL), got(2, 0)];
    let by_id = [insert(7, 2, DONE), insert(7, 1, DONE), got(7, 1), got(7, 2)];
    let not_by_id = [insert(7, 2, DONE), insert(7, 1, DONE), got(7, 2), got(7, 1)];
    let greatest = [
        insert(67_108_863, 4_194_303, DONE),
        got(67_108_863, 4_194_303),
    ];
    let crossed = [insert(1, 0, DONE), remove(DONE)];
    let not_empty = [insert(1, 0, DONE), remove(EMPTY)];
    let five = Reply::Got(Entry { key: 5, id: 1 });
    let bounded = [
        insert(5, 1, DONE),
        below(5, ABOVE),
        below(6, five),
        below(6, EMPTY),
    ];
    let got_at_limit = [insert(5, 1, DONE), below(5, five)];
    let above_under_limit = [insert(5, 1, DONE), below(6, ABOVE)];
    let above_on_nothing = [below(0, ABOVE)];
    let empty_under_limit = [insert(5, 1, DONE), below(4, EMPTY)];
    let full_below = [below(1, FULL)];
    // the marks, the capacity and the verdict
    let rows: [(&[Mark], u32, Verdict); 16] = [
        (&[], 4, legal),
        (&out_of_order, 4, Verdict::Bad { place: 2 }),
        (&in_order, 4, legal),
        (&full, 1, legal),
        (&full, 2, Verdict::Bad { place: 1 }),
        (&by_id, 4, legal),
        (&not_by_id, 4, Verdict::Bad { place: 2 }),
        (&greatest, 4, legal),
        (&crossed, 4, Verdict::Bad { place: 1 }),
        (&not_empty, 4, Verdict::Bad { place: 1 }),
        (&bounded, 4, legal),
        (&got_at_limit, 4, Verdict::Bad { place: 1 }),
        (&above_under_limit, 4, Verdict::Bad { place: 1 }),
        (&above_on_nothing, 4, Verdict::Bad { place: 0 }),
        (&empty_under_limit, 4, Verdict::Bad { place: 1 }),
        (&full_below, 4, Verdict::Bad { place: 0 }),
    ];
    for (marks, capacity, verdict) in rows {
        assert_eq!(rt; verdict_of(rt.alloc(), marks, 1, capacity), Some(verdict));
    }
}

// With sixteen seats and twenty places, an insert may be refused once five places are taken.
#[test]
fn full_may_come_early_with_many_seats(rt: HostRuntime) -> Result<(), AllocError> {
    let mut marks = Vec::new(rt.alloc());
    for key in 0..5 {
        marks.push(insert(key, 0, DONE))?;
    }
    marks.push(insert(9, 0, FULL))?;
    assert_eq!(rt;
        verdict_of(rt.alloc(), &marks, 16, 20),
        Some(Verdict::Legal { left: 5 })
    );
    marks.push(got(0, 0))?;
    marks.push(insert(9, 0, FULL))?;
    assert_eq!(rt;
        verdict_of(rt.alloc(), &marks, 16, 20),
        Some(Verdict::Bad { place: 7 })
    );
    Ok(())
}

#[test]
fn seventy_equal_entries_find_four_places(rt: HostRuntime) -> Result<(), AllocError> {
    let mut marks = Vec::new(rt.alloc());
    for place in 0..70 {
        marks.push(insert(7, 7, if place < 4 { DONE } else { FULL }))?;
    }
    for _place in 70..74 {
        marks.push(got(7, 7))?;
    }
    marks.push(remove(EMPTY))?;
    assert_eq!(rt;
        verdict_of(rt.alloc(), &marks, 1, 4),
        Some(Verdict::Legal { left: 0 })
    );
    Ok(())
}
