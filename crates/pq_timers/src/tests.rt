//! Timers that end, tickets that are guessed, and threads that cancel and fire the same timers.
ghost use Rattle.std.specs.Prelude.{◌≡◌, ◌+◌, ◌≤◌, All, length, IfOk};
ghost use Rattle.pq_timers.specs.Words.{TimerSeated, IsSeatOf};

use crate::{Cancel, Ticket, TimerSeat, TimerTable};
use std::sync::Wait;
use std::sync::atomic::{AtomicU32, Ordering};
use std::test::Fail;
use std::thread::{Threads, for_each_mut};

const TIMERS: u32 = 40_000;

const ORDER: Ordering = Ordering::SeqCst;

// A timer of the first moment is armed and fired, and one of the second armed and cancelled; each ends once.
#[test]
fn timers_end_once(rt: HostRuntime) -> Result<(), Fail> {
    let (table, mut seats) = TimerTable::open(rt.alloc(), 2, 1)?;
    let Some(mut seat) = seats.pop() else {
        panic!(rt; "there is a seat")
    };
    let first = Ticket {
        number: 0,
        moment: 130,
    };
    let second = Ticket {
        number: 1,
        moment: 1,
    };
    assert_eq!(rt; table.arm(&mut seat, 130), Ok(first));
    assert_eq!(rt; table.arm(&mut seat, 1), Ok(second));
    assert_eq!(rt; table.arm(&mut seat, 5), Err(2));
    assert!(rt; table.fire(&rt, &mut seat, first, 130));
    assert_eq!(rt; table.cancel(&mut seat, first), Cancel::WasFired);
    assert!(rt; !table.fire(&rt, &mut seat, first, 131));
    assert_eq!(rt; table.cancel(&mut seat, second), Cancel::Done);
    assert_eq!(rt; table.cancel(&mut seat, second), Cancel::WasCancelled);
    assert!(rt; !table.fire(&rt, &mut seat, second, 130));
    Ok(())
}

// Whether a cancel answers Unknown at each of these numbers and moments.
fn are_unknown(table: &TimerTable, seat: &mut TimerSeat, guesses: &[(u32, u32)]) -> bool
    requires own { IsSeatOf table.now seat.old }
    ensures own { IsSeatOf table.now seat.new }
{
    for &(number, moment) in guesses {
        if table.cancel(seat, Ticket { number, moment }) != Cancel::Unknown {
            return false;
        }
    }
    true
}

// Tickets of no timer, of another moment and of a timer that is not armed are unknown, and so is a refused one.
#[test]
fn guessed_tickets_are_unknown(rt: HostRuntime) -> Result<(), Fail> {
    let (table, mut seats) = TimerTable::open(rt.alloc(), 2, 2)?;
    let (Some(mut one), Some(mut two)) = (seats.pop(), seats.pop()) else {
        panic!(rt; "there are two seats")
    };
    let Ok(ticket) = table.arm(&mut one, 7) else {
        panic!(rt; "a number is left")
    };
    let guesses = [(0, 8), (0, 0), (1, 7), (1, 0), (2, 7), (u32::MAX, u32::MAX)];
    assert!(rt; are_unknown(&table, &mut two, &guesses));
    assert!(rt; table.refuse(&mut one, ticket));
    assert_eq!(rt; table.cancel(&mut two, ticket), Cancel::Unknown);
    assert!(rt; !table.fire(&rt, &mut two, ticket, 7));
    let Ok(other) = table.arm(&mut one, 9) else {
        panic!(rt; "a number is left")
    };
    assert_eq!(rt; table.cancel(&mut two, other), Cancel::Done);
    assert!(rt; !table.refuse(&mut one, other));
    table.join(&mut one, two);
    Ok(())
}

// Arms all timers, for the moment 7.
fn arm_all(table: &TimerTable, seat: &mut TimerSeat) -> u32
    requires own { IsSeatOf table.now seat.old }
    requires new { length seat.old.kept.arms ≡ 0 }
    ensures own { IsSeatOf table.now seat.new }
{
    let mut armed = 0;
    for _ in 0..TIMERS {
        if table.arm(seat, 7).is_ok() {
            armed += 1;
        }
    }
    armed
}

// Cancels or fires each timer, and counts those that this call ended.
fn end_all<R: Wait>(
    rt: &R,
    table: &TimerTable,
    seat: &mut TimerSeat,
    fires: bool,
    ends: &[AtomicU32],
)
    requires own { IsSeatOf table.now seat.old }
    ensures own { IsSeatOf table.now seat.new }
{
    for number in 0..TIMERS {
        let ticket = Ticket { number, moment: 7 };
        let won = if fires {
            table.fire(rt, seat, ticket, 7)
        } else {
            table.cancel(seat, ticket) == Cancel::Done
        };
        if won && let Some(times) = ends.get(number as usize) {
            times.fetch_add(1, ORDER);
        }
    }
}

fn race<R: Threads + Wait + Sync>(
    rt: &R,
    table: &TimerTable,
    seats: &mut [TimerSeat],
    ends: &[AtomicU32],
)
    requires own { All (λ (s : TimerSeated). IsSeatOf table.now s) seats.old }
{
    let turns = |index: usize, seat: &mut TimerSeat|
        requires { IsSeatOf table.now seat.now }
        ensures { IsSeatOf table.entry.now seat.exit.now }
    { end_all(rt, table, seat, index % 2 == 1, ends) };
    for_each_mut(rt, seats, 4, &turns);
}

// Two threads cancel and two fire the same timers in the same order, and each timer ends once.
#[test]
fn each_timer_ends_once_in_a_race(rt: HostRuntime) -> Result<(), Fail> {
    let (table, mut seats) = TimerTable::open(rt.alloc(), TIMERS, 5)?;
    let mut ends = Vec::with_capacity(rt.alloc(), TIMERS as usize)?;
    for _ in 0..TIMERS {
        ends.push(AtomicU32::new(0))?;
    }
    let Some(mut first) = seats.pop() else {
        panic!(rt; "there are seats")
    };
    assert_eq!(rt; arm_all(&table, &mut first), TIMERS);
    race(&rt, &table, seats.as_mut_slice(), ends.as_slice());
    assert_eq!(rt; ends.iter().position(|times| times.load(ORDER) != 1), None);
    Ok(())
}
