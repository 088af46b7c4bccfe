//! The store by threads that draw, put and take at once, and at the ends of its fields.
ghost use Rattle.std.specs.Prelude.{◌≡◌, ℕ, All, IfSome};
ghost use Rattle.bb_shared.specs.Stores.{StoreSeated, HasNoOver, nodes_of};

use crate::{Drawn, MAX_NODES, Store, StoreSeat};
use pq_model::MAX_SEATS;
use std::sync::Arc;
use std::sync::atomic::{AtomicU32, Ordering};
use std::test::Fail;
use std::thread::{Threads, for_each_mut};

const NODES: u32 = 400_000;

const TURNS: u32 = 30_000;

const ORDER: Ordering = Ordering::SeqCst;

// What is put under a number.
fn node_of(number: u32) -> u64 {
    u64::from(number) << 8 | 1
}

// Draws a number and puts its node, if a number is left.
fn place(store: &Store<u64>, seat: &mut StoreSeat<u64>, nodes: u32) -> Option<u32>
    requires own { seat.old.store ≡ store.now }
    requires nodes { nodes ≡ nodes_of store.now }
    requires under { HasNoOver seat.old.kept }
    ensures own { seat.new.store ≡ store.now }
    ensures under { IfSome result (λ number. HasNoOver seat.new.kept) }
{
    match store.draw(seat, 1, nodes) {
        Drawn::First(number) => {
            store.put(seat, number, node_of(number));
            Some(number)
        }
        Drawn::Over { asked: _ } => None,
    }
}

// Takes the node of the number if it is there, and counts it; a node of another number counts as many.
fn count(store: &Store<u64>, seat: &mut StoreSeat<u64>, number: u32, counts: &[AtomicU32])
    requires own { seat.old.store ≡ store.now }
    ensures own { seat.new.store ≡ store.now }
    ensures draws { seat.new.kept.draws ≡ seat.old.kept.draws }
{
    if let Some(node) = store.try_take(seat, number)
        && let Some(times) = counts.get(number as usize)
    {
        let more = if node == node_of(number) { 1 } else { 1_000 };
        times.fetch_add(more, ORDER);
    }
}

// Puts a node while numbers are left, and tries to take another's, in each turn.
fn work(store: &Store<u64>, seed: usize, seat: &mut StoreSeat<u64>, counts: &[AtomicU32])
    requires own { seat.old.store ≡ store.now }
    requires nodes { nodes_of store.now ≡ 400000 }
    requires under { HasNoOver seat.old.kept }
    ensures own { seat.new.store ≡ store.now }
{
    let mut at = seed as u64 % 97;
    for turn in 0..TURNS {
        let Some(_number) = place(store, seat, NODES) else {
            return;
        };
        at = (at * 69_069 + 1) % (1 << 32);
        count(store, seat, (at >> 8) as u32 % (16 * turn + 16), counts);
    }
}

fn all_work<R: Threads + Sync>(
    rt: &R,
    store: &Store<u64>,
    seats: &mut [StoreSeat<u64>],
    counts: &[AtomicU32],
)
    requires nodes { nodes_of store.now ≡ 400000 }
    requires own { All (λ (s : StoreSeated ℕ). (s.store ≡ store.now) × HasNoOver s.kept) seats.old }
    ensures own { All (λ (s : StoreSeated ℕ). s.store ≡ store.now) seats.new }
{
    let turns = |seed: usize, seat: &mut StoreSeat<u64>|
        requires { (seat.now.store ≡ store.now) × HasNoOver seat.now.kept × (nodes_of store.now ≡ 400000) }
        ensures { seat.exit.now.store ≡ store.entry.now }
    { work(store, seed, seat, counts) };
    for_each_mut(rt, seats, 16, &turns);
}

// Takes what is left.
fn take_all(store: &Store<u64>, seat: &mut StoreSeat<u64>, counts: &[AtomicU32])
    requires own { seat.old.store ≡ store.now }
    ensures own { seat.new.store ≡ store.now }
{
    for number in 0..NODES {
        count(store, seat, number, counts);
    }
}

// The first number whose node did not come out once.
fn not_once(counts: &[AtomicU32]) -> Option<usize> {
    counts.iter().position(|times| times.load(ORDER) != 1)
}

#[test]
fn each_node_comes_out_once(rt: HostRuntime) -> Result<(), Fail> {
    let (store, mut seats) = Store::open(rt.alloc(), NODES, MAX_SEATS)?;
    let mut counts = Vec::with_capacity(rt.alloc(), NODES as usize)?;
    for _ in 0..NODES {
        counts.push(AtomicU32::new(0))?;
    }
    all_work(&rt, &store, seats.as_mut_slice(), counts.as_slice());
    let Some(mut seat) = seats.pop() else {
        panic!(rt; "there are seats")
    };
    take_all(&store, &mut seat, counts.as_slice());
    assert_eq!(rt; not_once(counts.as_slice()), None);
    Ok(())
}

// Draws at the ends of the fields, and a node that waits until it is taken.
#[test]
fn draws_answer_by_the_limit(rt: HostRuntime) -> Result<(), Fail> {
    let (store, mut seats) = Store::open(rt.alloc(), MAX_NODES, 3)?;
    let (Some(mut one), Some(mut two), Some(mut three)) = (seats.pop(), seats.pop(), seats.pop())
    else {
        panic!(rt; "there are three seats")
    };
    assert_eq!(rt; store.draw(&mut two, 100, 100), Drawn::First(0));
    assert_eq!(rt; store.draw(&mut two, 1, 100), Drawn::Over { asked: 101 });
    assert_eq!(rt; place(&store, &mut one, MAX_NODES), Some(101));
    assert_eq!(rt; store.take(&rt, &mut two, 101), node_of(101));
    assert_eq!(rt; store.draw(&mut three, 98, u32::MAX), Drawn::First(102));
    assert_eq!(rt; store.draw(&mut three, 1, 0), Drawn::Over { asked: 201 });
    store.join(&mut one, two);
    store.join(&mut one, three);
    Ok(())
}

// A node that is left is dropped with its store.
#[test]
fn nodes_left_are_dropped(rt: HostRuntime) -> Result<(), Fail> {
    let node = Arc::new(rt.alloc(), 7u8)?;
    let (store, mut seats) = Store::open(rt.alloc(), 1, 1)?;
    let Some(mut seat) = seats.pop() else {
        panic!(rt; "there is a seat")
    };
    if let Drawn::First(number) = store.draw(&mut seat, 1, 1)
        && number == 0
    {
        store.put(&mut seat, 0, Arc::try_clone(&node)?);
    }
    assert_eq!(rt; Arc::strong_count(&node), 2);
    drop(store);
    assert_eq!(rt; Arc::strong_count(&node), 1);
    Ok(())
}
