//! The base under its smallest queue: worked calls, and two seats on threads of their own.
ghost use Rattle.std.specs.Prelude.{◌≡◌, ◌+◌, ◌*◌, ◌-◌, ◌<◌, ◌≤◌, length, IsSome, IfSome};
ghost use Rattle.pq_api.specs.Limits.{call_limit};
ghost use Rattle.pq_seats.specs.Passes.{known};
ghost use Rattle.pq_spot.specs.Passes.{Rests};

use crate::{
    Settled, SpotPass, SpotTable, accept, glance, grab, offer, offer_again, open, remove,
    send_back, settle, shut, tell, try_hold, unhold,
};
use pq_words::Letter;
use std::sync::Wait;
use std::test::Fail;
use std::thread::join;

// Each thread ends after this many turns.
const TURNS: u32 = 20_000;

// A removal places the insert that another seat offers, and the letter tells that seat where.
#[test]
fn letters_tell_places(rt: HostRuntime) -> Result<(), Fail> {
    let (table, mut passes) = open(rt.alloc(), 1, 3)?;
    let mut first = passes.remove(0);
    let mut second = passes.remove(0);
    let mut third = passes.remove(0);
    assert!(rt; offer(&rt, &table, &mut first));
    assert!(rt; !offer(&rt, &table, &mut second));
    assert_eq!(rt; remove(&rt, &table, &mut third), (true, 1));
    assert_eq!(rt; table.take_letter(&mut third), Letter::Nothing);
    assert_eq!(rt; settle(&rt, &table, &mut first), Settled::Placed(0));
    assert_eq!(rt; table.length(&mut second), 2);
    Ok(())
}

// An insert is placed by another seat that makes no call, and its owner is told where. A glance tells how many calls were
// made, also to a seat whose insert is in flight.
#[test]
fn others_place_an_insert(rt: HostRuntime) -> Result<(), Fail> {
    let (table, mut passes) = open(rt.alloc(), 1, 2)?;
    let mut first = passes.remove(0);
    let mut second = passes.remove(0);
    assert_eq!(rt; grab(&rt, &table, &mut second), (false, 0));
    assert!(rt; offer(&rt, &table, &mut first));
    assert_eq!(rt; grab(&rt, &table, &mut second), (false, 1));
    let Some((owner, place)) = accept(&rt, &table, &mut second) else {
        panic!(rt; "there is an offer")
    };
    assert_eq!(rt; (owner, place), (1, 2));
    tell(&table, &mut second, owner, Letter::At(place));
    assert_eq!(rt; glance(&table, &mut first), 3);
    assert_eq!(rt; settle(&rt, &table, &mut first), Settled::Placed(2));
    assert_eq!(rt; grab(&rt, &table, &mut second), (true, 3));
    assert_eq!(rt; glance(&table, &mut second), 4);
    assert_eq!(rt; accept(&rt, &table, &mut second), None);
    assert_eq!(rt; send_back(&rt, &table, &mut first), None);
    Ok(())
}

// An offer is sent back: nothing is placed, and its owner offers the entry again.
#[test]
fn offers_are_sent_back(rt: HostRuntime) -> Result<(), Fail> {
    let (table, mut passes) = open(rt.alloc(), 1, 2)?;
    let mut first = passes.remove(0);
    let mut second = passes.remove(0);
    assert!(rt; offer(&rt, &table, &mut first));
    let Some(owner) = send_back(&rt, &table, &mut second) else {
        panic!(rt; "there is an offer")
    };
    assert_eq!(rt; owner, 1);
    tell(&table, &mut second, owner, Letter::Back);
    assert_eq!(rt; remove(&rt, &table, &mut second), (false, 0));
    let settled = settle(&rt, &table, &mut first);
    assert_eq!(rt; settled, Settled::Back);
    if let Settled::Back = settled {
        assert!(rt; offer_again(&rt, &table, &mut first));
        assert_eq!(rt; remove(&rt, &table, &mut second), (true, 2));
        assert_eq!(rt; settle(&rt, &table, &mut first), Settled::Placed(1));
    }
    Ok(())
}

// A seat whose offer still stands places its insert itself. The fronts of all passes meet, and all are joined.
#[test]
fn joined_passes_are_shut(rt: HostRuntime) -> Result<(), Fail> {
    let (table, mut passes) = open(rt.alloc(), 1, 3)?;
    let mut first = passes.remove(0);
    let mut second = passes.remove(0);
    let mut third = passes.remove(0);
    assert_eq!(rt; (first.number, second.number, third.number), (1, 2, 3));
    assert_eq!(rt; remove(&rt, &table, &mut second), (false, 0));
    assert_eq!(rt; remove(&rt, &table, &mut third), (false, 1));
    table.meet(&mut second, &mut third);
    table.join(&mut second, third);
    assert_eq!(rt; table.length(&mut second), 2);
    table.meet(&mut first, &mut second);
    assert_eq!(rt; remove(&rt, &table, &mut first), (false, 2));
    table.join(&mut first, second);
    assert_eq!(rt; first.lanes, 3);
    assert!(rt; table.seats <= first.lanes);
    assert_eq!(rt; shut(table, first), (false, 3));
    Ok(())
}

// A lock that one seat holds is refused to the other until it is free.
#[test]
fn held_locks_are_refused(rt: HostRuntime) -> Result<(), Fail> {
    let (table, mut passes) = open(rt.alloc(), 1, 2)?;
    let mut first = passes.remove(0);
    let mut second = passes.remove(0);
    if try_hold(&table, &mut first) {
        assert!(rt; !try_hold(&table, &mut second));
        unhold(&table, &mut first);
    } else {
        panic!(rt; "the lock was free")
    }
    assert!(rt; try_hold(&table, &mut first));
    Ok(())
}

// How many calls a thread has made, and how many of them took the entry or put one in.
#[derive(Clone, Copy, Debug, PartialEq, Eq, Drop)]
struct Made {
    calls: u32,
    inserts: u32,
    taken: u32,
}

// An insert where the spot is free, and a removal. Nothing where the insert was offered and its letter did not come.
fn one_turn<W: Wait>(rt: &W, table: &SpotTable, pass: &mut SpotPass, made: Made) -> Option<Made>
    requires rests { Rests table.now pass.old }
    requires few { length (known pass.old).calls < call_limit - 2 }
    ensures rests { IsSome result → Rests table.now pass.new }
    ensures calls { IsSome result → length (known pass.new).calls ≤ length (known pass.old).calls + 2 }
{
    let mut made = made;
    if offer(rt, table, pass) {
        let Settled::Placed(_) = settle(rt, table, pass) else {
            return None;
        };
        made.calls = made.calls.saturating_add(1);
        made.inserts = made.inserts.saturating_add(1);
    }
    let (taken, _) = remove(rt, table, pass);
    made.calls = made.calls.saturating_add(1);
    made.taken = made.taken.saturating_add(u32::from(taken));
    Some(made)
}

// All turns of a thread.
fn turns<W: Wait>(rt: &W, table: &SpotTable, pass: SpotPass) -> Option<(Made, SpotPass)>
    requires rests { Rests table.now pass }
    requires few { length (known pass).calls ≤ 0 }
    ensures rests { IfSome result (λ r. Rests table.now r.1) }
{
    let mut pass = pass;
    let mut made = Made {
        calls: 0,
        inserts: 0,
        taken: 0,
    };
    for _ in 0..TURNS {
        made = one_turn(rt, table, &mut pass, made)?;
    }
    Some((made, pass))
}

// The history has each call of both threads once, and the entry is left where it was put in once more than taken.
#[test]
fn two_seats_call_at_once(rt: HostRuntime) -> Result<(), Fail> {
    let (table, mut passes) = open(rt.alloc(), 1, 2)?;
    let first = passes.remove(0);
    let second = passes.remove(0);
    let (by_first, by_second) = join(
        &rt,
        || turns(&rt, &table, first),
        || turns(&rt, &table, second),
    );
    let (Some((made, mut first)), Some((other, second))) = (by_first, by_second) else {
        panic!(rt; "a letter was not there")
    };
    table.join(&mut first, second);
    assert!(rt; table.seats <= first.lanes);
    let calls = made.calls.saturating_add(other.calls);
    let put_in = made.inserts.saturating_add(other.inserts);
    let taken = made.taken.saturating_add(other.taken);
    assert!(rt; TURNS < calls);
    assert_eq!(rt;
        shut(table, first),
        (put_in == taken.saturating_add(1), calls)
    );
    assert!(rt; put_in == taken || put_in == taken.saturating_add(1));
    Ok(())
}
