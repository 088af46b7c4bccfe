//! The calls of the builder: a chunk is taken, made live, and made young once it is replaced.
ghost use Rattle.std.specs.Prelude.{◌≡◌, ℕ, MatchOption};
ghost use Rattle.pq_seats.specs.Passes.{limits_of, view_of};
ghost use Rattle.pq_pool.specs.declared.views.PoolView.{PoolView};
ghost use Rattle.pq_pool.specs.States.{live_state, young_state, IsBuilt, IsLive};
ghost use Rattle.pq_pool.specs.Views.{moved};
ghost use Rattle.pq_pool.specs.Parts.{with_pool_view};
ghost use Rattle.pq_pool.specs.PoolLaws.{MayMove};
ghost use Rattle.pq_pool.specs.Passes.{pool_of, HoldsBuilder, StaysBuilder, AgreesAt};
ghost use Rattle.pq_pool.specs.Steps.{GivenOut};
ghost use Rattle.pq_pool.specs.Sweeps.{Swept, NoneFree, LeastFree};

use crate::PoolRule;
use crate::layout::{FREE, LIVE, YOUNG};
use crate::steps::{begin_chunk, chunk_count, load_state, move_to};
use crate::sweeping::sweep;
use pq_seats::{SeatPass, Shared};

/// Sweeps once, and gives the free chunk of least number, which is then being built. The answer is `None` exactly where
/// no chunk was free after that sweep.
///
/// The seat holds the builder's word, and what it has written is as it counts. The sweep goes over the seats, and then
/// the chunks: O(seats + chunks) steps, no memory, and it waits for nobody.
pub fn take<R: PoolRule>(shared: &Shared<R>, pass: &mut SeatPass<R>) -> Option<u32>
    requires builder { HoldsBuilder R.pool shared.now pass.old }
    requires agrees { AgreesAt R.pool shared.now pass.old }
    ensures same { StaysBuilder R.pool shared.now pass.old pass.new }
    ensures taken { (swept : PoolView)
        × Swept shared.now.seats pass.old.number (pool_of R.pool pass.old) swept
        × MatchOption result
        (NoneFree swept (pool_of R.pool pass.new))
        (λ c. LeastFree swept (pool_of R.pool pass.new) c
        × GivenOut R.rule R.pool (with_pool_view R.pool (view_of pass.old) swept) c) }
    ensures agrees { AgreesAt R.pool shared.now pass.new }
    ensures live { (c : ℕ) → IsLive (pool_of R.pool pass.old).counted c
        → IsLive (pool_of R.pool pass.new).counted c }
{
    sweep(shared, pass);
    for chunk in 0..chunk_count(shared, pass) {
        if load_state(shared, pass, chunk) == FREE {
            begin_chunk(shared, pass, chunk);
            return Some(chunk);
        }
    }
    None
}

/// Makes a chunk that is being built live, by one store.
///
/// The rule has to allow it: what the chunk links to counts as live. A chunk may count as live before it is published,
/// as those of an install do.
pub fn publish<R: PoolRule>(shared: &Shared<R>, pass: &mut SeatPass<R>, chunk: u32)
    requires builder { HoldsBuilder R.pool shared.now pass.old }
    requires built { IsBuilt (pool_of R.pool pass.old).stored chunk }
    requires allowed { MayMove R.rule R.pool (limits_of shared.now) pass.old.seat.id
        (view_of pass.old) chunk live_state }
    ensures same { StaysBuilder R.pool shared.now pass.old pass.new }
    ensures live { pool_of R.pool pass.new ≡ moved (pool_of R.pool pass.old) chunk live_state }
    ensures agrees { AgreesAt R.pool shared.now pass.old → AgreesAt R.pool shared.now pass.new }
{
    move_to(shared, pass, chunk, LIVE);
}

/// Makes a live chunk young, by one store. It becomes free by two turns of the batches, and each of these waits for the
/// seats that were pinned.
///
/// The rule has to allow it: no live chunk links to it.
pub fn retire<R: PoolRule>(shared: &Shared<R>, pass: &mut SeatPass<R>, chunk: u32)
    requires builder { HoldsBuilder R.pool shared.now pass.old }
    requires live { IsLive (pool_of R.pool pass.old).counted chunk }
    requires allowed { MayMove R.rule R.pool (limits_of shared.now) pass.old.seat.id
        (view_of pass.old) chunk young_state }
    ensures same { StaysBuilder R.pool shared.now pass.old pass.new }
    ensures young { pool_of R.pool pass.new ≡ moved (pool_of R.pool pass.old) chunk young_state }
    ensures agrees { AgreesAt R.pool shared.now pass.old → AgreesAt R.pool shared.now pass.new }
{
    move_to(shared, pass, chunk, YOUNG);
}
