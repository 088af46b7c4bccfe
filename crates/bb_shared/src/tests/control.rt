//! The control's words by hand, at the ends of their fields, and by threads at once.
ghost use Rattle.std.specs.Prelude.{◌≡◌, ◌≤◌, ◌<◌, All};
ghost use Rattle.bb_shared.specs.Controls.{IsTellable, ControlSeated};

use crate::{Control, ControlSeat, Stop};
use bb_problem::COST_LIMIT;
use pq_io::NoMemory;
use pq_model::MAX_SEATS;
use std::alloc::Global;
use std::sync::atomic::{AtomicU32, Ordering};
use std::test::Fail;
use std::thread::{Threads, for_each_mut};

const ORDER: Ordering = Ordering::SeqCst;

// The costs that are told, each with the best after it, up to the first that is wrong.
fn tells(
    control: &Control,
    teller: &mut ControlSeat,
    reader: &mut ControlSeat,
    rows: &[(u32, u32)],
) -> Option<u32>
    requires own { (teller.old.control ≡ control.now) × (reader.old.control ≡ control.now) }
    ensures own { (teller.new.control ≡ control.now) × (reader.new.control ≡ control.now) }
{
    for (cost, wanted) in rows {
        if *cost >= COST_LIMIT {
            return Some(*cost);
        }
        control.better(teller, *cost);
        if control.best(reader) != Some(*wanted) {
            return Some(*cost);
        }
    }
    None
}

#[test]
fn the_best_is_the_least_that_was_told(rt: HostRuntime) -> Result<(), Fail> {
    let (control, mut seats) = Control::open(rt.alloc(), 2)?;
    let (Some(mut reader), Some(mut teller)) = (seats.pop(), seats.pop()) else {
        panic!(rt; "there are two seats")
    };
    assert_eq!(rt; control.best(&mut reader), None);
    let greatest = COST_LIMIT - 1;
    let rows = [
        (greatest, greatest),
        (9, 9),
        (12, 9),
        (9, 9),
        (0, 0),
        (1, 0),
    ];
    assert_eq!(rt; tells(&control, &mut teller, &mut reader, &rows), None);
    control.join(&mut teller, reader);
    assert_eq!(rt; control.best(&mut teller), Some(0));
    Ok(())
}

// What is read before the stop is set, after it, and after a second one.
fn reads(alloc: Global, stop: Stop) -> Result<[Option<Stop>; 3], NoMemory>
    requires { IsTellable stop }
{
    let (control, mut seats) = Control::open(alloc, 2)?;
    let (Some(mut one), Some(mut other)) = (seats.pop(), seats.pop()) else {
        return Ok([None; 3]);
    };
    let before = control.stopped(&mut other);
    control.stop(&mut one, stop);
    let after = control.stopped(&mut other);
    control.stop(&mut other, Stop::Full { place: 1 });
    Ok([before, after, control.stopped(&mut one)])
}

#[test]
fn the_first_stop_stays(rt: HostRuntime) -> Result<(), Fail> {
    let least = Stop::NodeLimit { asked: 0 };
    assert_eq!(rt; reads(rt.alloc(), least)?, [None, Some(least), Some(least)]);
    let most = Stop::NodeLimit {
        asked: (1 << 33) - 1,
    };
    assert_eq!(rt; reads(rt.alloc(), most)?, [None, Some(most), Some(most)]);
    let first = Stop::Full { place: 0 };
    assert_eq!(rt; reads(rt.alloc(), first)?, [None, Some(first), Some(first)]);
    let last = Stop::Full { place: u32::MAX };
    assert_eq!(rt; reads(rt.alloc(), last)?, [None, Some(last), Some(last)]);
    let memory = Stop::NoMemory;
    assert_eq!(rt;
        reads(rt.alloc(), memory)?,
        [None, Some(memory), Some(memory)]
    );
    Ok(())
}

#[test]
fn the_open_word_counts_up_and_down(rt: HostRuntime) -> Result<(), Fail> {
    let (control, mut seats) = Control::open(rt.alloc(), 1)?;
    let Some(mut seat) = seats.pop() else {
        panic!(rt; "there is one seat")
    };
    assert!(rt; control.idle(&mut seat));
    control.opened(&mut seat, u32::MAX);
    control.opened(&mut seat, 3);
    assert_eq!(rt; control.closed(&mut seat), 1);
    assert_eq!(rt; control.closed(&mut seat), 0);
    assert!(rt; !control.idle(&mut seat));
    Ok(())
}

// Opens one, tells a cost, reads the best and closes one, in each turn. Counts the reads that rose.
fn work(control: &Control, number: usize, seat: &mut ControlSeat, turns: u32, risen: &AtomicU32)
    requires own { (seat.old.control ≡ control.now) × (seat.old.kept.closed ≤ seat.old.kept.opened) }
    ensures own { seat.new.control ≡ control.now }
{
    let mut last = COST_LIMIT;
    for turn in 0..turns {
        control.opened(seat, 1);
        control.better(seat, (turn ^ (number % 16) as u32) % COST_LIMIT);
        let best = control.best(seat).unwrap_or(COST_LIMIT);
        if best > last {
            risen.fetch_add(1, ORDER);
        }
        last = best;
        control.closed(seat);
    }
}

fn all_work<R: Threads + Sync>(
    rt: &R,
    control: &Control,
    seats: &mut [ControlSeat],
    risen: &AtomicU32,
)
    requires own { All (λ (s : ControlSeated). (s.control ≡ control.now) × (s.kept.closed ≤ s.kept.opened)) seats.old }
    ensures own { All (λ (s : ControlSeated). s.control ≡ control.now) seats.new }
{
    let turns = |number: usize, seat: &mut ControlSeat|
        requires { (seat.now.control ≡ control.now) × (seat.now.kept.closed ≤ seat.now.kept.opened) }
        ensures { seat.exit.now.control ≡ control.entry.now }
    { work(control, number, seat, 3_000, risen) };
    for_each_mut(rt, seats, 16, &turns);
}

#[test]
fn threads_never_see_the_best_rise(rt: HostRuntime) -> Result<(), Fail> {
    let (control, mut seats) = Control::open(rt.alloc(), MAX_SEATS)?;
    let risen = AtomicU32::new(0);
    all_work(&rt, &control, seats.as_mut_slice(), &risen);
    assert_eq!(rt; risen.load(ORDER), 0);
    let Some(mut seat) = seats.pop() else {
        panic!(rt; "there are seats")
    };
    assert_eq!(rt; control.best(&mut seat), Some(0));
    assert!(rt; control.idle(&mut seat));
    Ok(())
}
