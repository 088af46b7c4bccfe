//! The sweep: it clears grace bits, and where none is left, it turns the batches.
ghost use Rattle.std.specs.Prelude.{◌≡◌, ℕ, ◌+◌, ◌<◌, ◌≤◌, Bool, length, slice_index};
ghost use Rattle.pq_model.specs.History.{IsSeat};
ghost use Rattle.pq_pool.specs.States.{state_of, grace_of, IsLive, turned};
ghost use Rattle.pq_pool.specs.Views.{all_but, state_stored};
ghost use Rattle.pq_pool.specs.Passes.{pool_of, HoldsBuilder, StaysBuilder, AgreesAt};
ghost use Rattle.pq_pool.specs.Sweeps.{GoneOver, Turned, Swept};
ghost use Rattle.pq_pool.specs.SweepSteps.{SeatHeard, GraceStored, StatesStored};

use crate::PoolRule;
use crate::layout::{FREE, OLD, YOUNG};
use crate::steps::{
    chunk_count, load_grace, load_pin, load_state, store_grace, store_state, turn_batches,
};
use pq_seats::{SeatPass, Shared};

// Clears the grace bit of a seat where its pin word is 0, and tells whether the bit is left.
fn go_over_seat<R: PoolRule>(shared: &Shared<R>, pass: &mut SeatPass<R>, seat: u32) -> bool
    requires builder { HoldsBuilder R.pool shared.now pass.old }
    requires seat { IsSeat shared.now.seats seat }
    requires agrees { AgreesAt R.pool shared.now pass.old }
    ensures same { StaysBuilder R.pool shared.now pass.old pass.new }
    ensures heard { SeatHeard shared.now.seats
        (pool_of R.pool pass.old) (pool_of R.pool pass.new) seat result }
{
    if load_grace(shared, pass, seat) == 0 {
        return false;
    }
    if load_pin(shared, pass, seat) != 0 {
        return true;
    }
    store_grace(shared, pass, seat, 0);
    false
}

// Goes over the bits of all seats, and tells whether one is left.
fn go_over<R: PoolRule>(shared: &Shared<R>, pass: &mut SeatPass<R>) -> bool
    requires builder { HoldsBuilder R.pool shared.now pass.old }
    requires agrees { AgreesAt R.pool shared.now pass.old }
    ensures same { StaysBuilder R.pool shared.now pass.old pass.new }
    ensures gone_over { GoneOver shared.now.seats (pool_of R.pool pass.old)
        (pool_of R.pool pass.new) (shared.now.seats + 1) result }
{
    let mut left = false;
    for seat in 1..shared.seats + 1 {
        if go_over_seat(shared, pass, seat) {
            left = true;
        }
    }
    left
}

// The grace bit of a seat once the batches have turned: that of the builder is not set.
fn new_grace(builder: u32, seat: u32) -> u64
    ensures { (seats : ℕ) → builder ≤ seats → seat ≤ seats → result ≡ slice_index (all_but seats builder) seat }
{
    if seat == builder { 0 } else { 1 }
}

// What becomes of a state where the batches turn: a young chunk becomes old, and an old one free.
fn turned_state(state: u64) -> u64
    ensures { result ≡ turned state }
{
    match state {
        YOUNG => OLD,
        OLD => FREE,
        _ => state,
    }
}

// Stores the bits as they count, once the batches have turned.
fn store_all_grace<R: PoolRule>(shared: &Shared<R>, pass: &mut SeatPass<R>)
    requires builder { HoldsBuilder R.pool shared.now pass.old }
    requires grace { (pool_of R.pool pass.old).counted.grace ≡ all_but shared.now.seats pass.old.number }
    ensures same { StaysBuilder R.pool shared.now pass.old pass.new }
    ensures stored { GraceStored (pool_of R.pool pass.old) (pool_of R.pool pass.new)
        (shared.now.seats + 1) }
{
    let builder = pass.number;
    for seat in 1..shared.seats + 1 {
        store_grace(shared, pass, seat, new_grace(builder, seat));
    }
}

// Stores what becomes of the state of a chunk, where that is another.
fn store_turned<R: PoolRule>(shared: &Shared<R>, pass: &mut SeatPass<R>, chunk: u32)
    requires builder { HoldsBuilder R.pool shared.now pass.old }
    requires chunk { chunk < length (pool_of R.pool pass.old).stored.states }
    ensures same { StaysBuilder R.pool shared.now pass.old pass.new }
    ensures view { let v = pool_of R.pool pass.old in
        pool_of R.pool pass.new ≡ state_stored v chunk (turned (state_of v.stored chunk)) }
{
    let state = load_state(shared, pass, chunk);
    let next = turned_state(state);
    if next != state {
        store_state(shared, pass, chunk, next);
    }
}

// Stores the states as they count, once the batches have turned.
fn store_all_states<R: PoolRule>(shared: &Shared<R>, pass: &mut SeatPass<R>)
    requires builder { HoldsBuilder R.pool shared.now pass.old }
    requires turned { let v = pool_of R.pool pass.old in
        (c : ℕ) → state_of v.counted c ≡ turned (state_of v.stored c) }
    ensures same { StaysBuilder R.pool shared.now pass.old pass.new }
    ensures stored { let v = pool_of R.pool pass.old in
        StatesStored v (pool_of R.pool pass.new) (length v.stored.states) }
{
    for chunk in 0..chunk_count(shared, pass) {
        store_turned(shared, pass, chunk);
    }
}

// The batches turn, by the first store. The others write what counts from then on.
fn turn<R: PoolRule>(shared: &Shared<R>, pass: &mut SeatPass<R>)
    requires builder { HoldsBuilder R.pool shared.now pass.old }
    requires agrees { AgreesAt R.pool shared.now pass.old }
    requires cleared { (n : ℕ) → IsSeat shared.now.seats n → grace_of (pool_of R.pool pass.old).counted n ≡ 0 }
    ensures same { StaysBuilder R.pool shared.now pass.old pass.new }
    ensures turned { Turned shared.now.seats pass.old.number
        (pool_of R.pool pass.old) (pool_of R.pool pass.new) }
{
    turn_batches(shared, pass, 0);
    store_all_grace(shared, pass);
    store_all_states(shared, pass);
}

/// A whole sweep: it clears the grace bits of the seats whose pin word is 0, and turns the batches where none is left.
pub fn sweep<R: PoolRule>(shared: &Shared<R>, pass: &mut SeatPass<R>)
    requires builder { HoldsBuilder R.pool shared.now pass.old }
    requires agrees { AgreesAt R.pool shared.now pass.old }
    ensures same { StaysBuilder R.pool shared.now pass.old pass.new }
    ensures swept { Swept shared.now.seats pass.old.number
        (pool_of R.pool pass.old) (pool_of R.pool pass.new) }
    ensures agrees { AgreesAt R.pool shared.now pass.new }
    ensures live { (c : ℕ) → IsLive (pool_of R.pool pass.old).counted c
        → IsLive (pool_of R.pool pass.new).counted c }
{
    if !go_over(shared, pass) {
        turn(shared, pass);
    }
}
