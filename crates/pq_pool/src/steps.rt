//! The single steps of the builder on the words of the pool.
ghost use Rattle.std.specs.Prelude.{◌≡◌, ◌⊎◌, ℕ, ◌<◌, length};
ghost use Rattle.pq_model.specs.History.{IsSeat};
ghost use Rattle.pq_seats.specs.Passes.{limits_of, view_of};
ghost use Rattle.pq_pool.specs.States.{state_of, grace_of, built_state, IsFree};
ghost use Rattle.pq_pool.specs.Views.{pin_loaded, grace_stored, state_stored, moved, turned_at};
ghost use Rattle.pq_pool.specs.PoolLaws.{MayMove};
ghost use Rattle.pq_pool.specs.Passes.{pool_of, HoldsBuilder, StaysBuilder, AgreesAt};
ghost use Rattle.pq_pool.specs.Steps.{GivenOut};

use crate::PoolRule;
use crate::layout::{BUILT, CHUNK_WORDS, FIRST_CHUNK, FIRST_STATE, GRACE_BITS, PINS};
use crate::plays::{Begin, LoadGrace, LoadPin, LoadState, Move, StoreGrace, StoreState, TurnGrace};
use pq_seats::{SeatPass, Shared};

/// The grace bit of a seat.
pub fn load_grace<R: PoolRule>(shared: &Shared<R>, pass: &mut SeatPass<R>, seat: u32) -> u64
    requires builder { HoldsBuilder R.pool shared.now pass.old }
    requires seat { IsSeat shared.now.seats seat }
    ensures same { StaysBuilder R.pool shared.now pass.old pass.new }
    ensures view { pool_of R.pool pass.new ≡ pool_of R.pool pass.old }
    ensures bit { result ≡ grace_of (pool_of R.pool pass.old).stored seat }
{
    shared
        .table
        .shared
        .load::<LoadGrace<R>>(&mut pass.seat, GRACE_BITS + seat as usize)
}

/// The pin word of a seat. Where it is 0, the seat's grace bit no more counts.
pub fn load_pin<R: PoolRule>(shared: &Shared<R>, pass: &mut SeatPass<R>, seat: u32) -> u64
    requires builder { HoldsBuilder R.pool shared.now pass.old }
    requires seat { IsSeat shared.now.seats seat }
    ensures same { StaysBuilder R.pool shared.now pass.old pass.new }
    ensures view { pool_of R.pool pass.new ≡ pin_loaded (pool_of R.pool pass.old) seat result }
    ensures pin { (result ≡ 0) ⊎ (result ≡ 1) }
{
    shared
        .table
        .shared
        .load::<LoadPin<R>>(&mut pass.seat, PINS + seat as usize)
}

/// Stores a grace bit. Nothing that counts changes.
pub fn store_grace<R: PoolRule>(shared: &Shared<R>, pass: &mut SeatPass<R>, seat: u32, bit: u64)
    requires builder { HoldsBuilder R.pool shared.now pass.old }
    requires seat { IsSeat shared.now.seats seat }
    ensures same { StaysBuilder R.pool shared.now pass.old pass.new }
    ensures view { pool_of R.pool pass.new ≡ grace_stored (pool_of R.pool pass.old) seat bit }
{
    shared
        .table
        .shared
        .store::<StoreGrace<R>>(&mut pass.seat, GRACE_BITS + seat as usize, bit);
}

/// Stores the grace bit of seat 1, at which the batches turn. No bit may be left.
pub fn turn_batches<R: PoolRule>(shared: &Shared<R>, pass: &mut SeatPass<R>, bit: u64)
    requires builder { HoldsBuilder R.pool shared.now pass.old }
    requires cleared { (n : ℕ) → IsSeat shared.now.seats n → grace_of (pool_of R.pool pass.old).counted n ≡ 0 }
    ensures same { StaysBuilder R.pool shared.now pass.old pass.new }
    ensures view { pool_of R.pool pass.new
        ≡ turned_at (pool_of R.pool pass.old) shared.now.seats pass.old.number bit }
{
    shared
        .table
        .shared
        .store::<TurnGrace<R>>(&mut pass.seat, GRACE_BITS + 1, bit);
}

/// How many chunks the table has.
pub fn chunk_count<R: PoolRule>(shared: &Shared<R>, pass: &SeatPass<R>) -> u32
    requires builder { HoldsBuilder R.pool shared.now pass.now }
    ensures stored { result ≡ length (pool_of R.pool pass.now).stored.states }
    ensures counted { result ≡ length (pool_of R.pool pass.now).counted.states }
{
    ((shared.words - FIRST_CHUNK) / CHUNK_WORDS) as u32
}

/// The state of a chunk.
pub fn load_state<R: PoolRule>(shared: &Shared<R>, pass: &mut SeatPass<R>, chunk: u32) -> u64
    requires builder { HoldsBuilder R.pool shared.now pass.old }
    requires chunk { chunk < length (pool_of R.pool pass.old).stored.states }
    ensures same { StaysBuilder R.pool shared.now pass.old pass.new }
    ensures view { pool_of R.pool pass.new ≡ pool_of R.pool pass.old }
    ensures state { result ≡ state_of (pool_of R.pool pass.old).stored chunk }
{
    shared
        .table
        .shared
        .load::<LoadState<R>>(&mut pass.seat, FIRST_STATE + CHUNK_WORDS * chunk as usize)
}

/// Stores a state. Nothing that counts changes.
pub fn store_state<R: PoolRule>(shared: &Shared<R>, pass: &mut SeatPass<R>, chunk: u32, state: u64)
    requires builder { HoldsBuilder R.pool shared.now pass.old }
    requires chunk { chunk < length (pool_of R.pool pass.old).stored.states }
    ensures same { StaysBuilder R.pool shared.now pass.old pass.new }
    ensures view { pool_of R.pool pass.new
        ≡ state_stored (pool_of R.pool pass.old) chunk state }
{
    shared.table.shared.store::<StoreState<R>>(
        &mut pass.seat,
        FIRST_STATE + CHUNK_WORDS * chunk as usize,
        state,
    );
}

/// Takes a free chunk, which is then being built. At that step no pinned seat stands on it.
pub fn begin_chunk<R: PoolRule>(shared: &Shared<R>, pass: &mut SeatPass<R>, chunk: u32)
    requires builder { HoldsBuilder R.pool shared.now pass.old }
    requires chunk { chunk < length (pool_of R.pool pass.old).stored.states }
    requires free { IsFree (pool_of R.pool pass.old).counted chunk }
    ensures same { StaysBuilder R.pool shared.now pass.old pass.new }
    ensures view { pool_of R.pool pass.new ≡ moved (pool_of R.pool pass.old) chunk built_state }
    ensures given { GivenOut R.rule R.pool (view_of pass.old) chunk }
{
    shared.table.shared.store::<Begin<R>>(
        &mut pass.seat,
        FIRST_STATE + CHUNK_WORDS * chunk as usize,
        BUILT,
    );
}

/// Stores a state that the rule allows, which counts from then on.
pub fn move_to<R: PoolRule>(shared: &Shared<R>, pass: &mut SeatPass<R>, chunk: u32, state: u64)
    requires builder { HoldsBuilder R.pool shared.now pass.old }
    requires chunk { chunk < length (pool_of R.pool pass.old).stored.states }
    requires allowed { MayMove R.rule R.pool (limits_of shared.now) pass.old.seat.id
        (view_of pass.old) chunk state }
    ensures same { StaysBuilder R.pool shared.now pass.old pass.new }
    ensures view { pool_of R.pool pass.new ≡ moved (pool_of R.pool pass.old) chunk state }
    ensures agrees { AgreesAt R.pool shared.now pass.old → AgreesAt R.pool shared.now pass.new }
{
    shared.table.shared.store::<Move<R>>(
        &mut pass.seat,
        FIRST_STATE + CHUNK_WORDS * chunk as usize,
        state,
    );
}
