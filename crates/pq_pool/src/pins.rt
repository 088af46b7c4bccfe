//! Pins: a pinned seat may read the chunks that it stands on, since none of them is given out.
ghost use Rattle.std.specs.Prelude.{◌≡◌, ◌≤◌, true, Contains};
ghost use Rattle.pq_seats.specs.Passes.{limits_of, view_of, Belongs};
ghost use Rattle.pq_pool.specs.Layout.{builder_word, first_chunk};
ghost use Rattle.pq_pool.specs.Views.{pinned_on, unpinned};
ghost use Rattle.pq_pool.specs.PoolLaws.{MayUnpin};
ghost use Rattle.pq_pool.specs.Passes.{pool_of, StaysSeated};
ghost use Rattle.pq_pool.specs.Steps.{StandsOnLive, StandsOnSafe, StandsSafely};

use crate::PoolRule;
use crate::layout::PINS;
use crate::plays::{Look, Pin, Unpin};
use pq_seats::{SeatPass, Shared};

/// Sets the seat's pin word, by one store. From then on the seat stands on all chunks that are live at a moment at
/// which it has this view, as the step's own is, and where it was pinned before, on those on which it stood. Until its
/// next step none of them is free.
///
/// The seat does not hold the builder's word. Any seat may pin itself at any other time, whatever the queue does. The
/// table has the words of the pool: that there is a pin word to write is not known of every table.
pub fn pin<R: PoolRule>(shared: &Shared<R>, pass: &mut SeatPass<R>)
    requires wide { first_chunk ≤ shared.now.words }
    requires own { Belongs shared.now pass.old }
    requires no_lock { ¬ Contains (view_of pass.old).post.locks builder_word }
    ensures same { StaysSeated R.pool shared.now pass.old pass.new }
    ensures pinned { (pool_of R.pool pass.new).pinned ≡ true }
    ensures view { pool_of R.pool pass.new ≡ pinned_on (pool_of R.pool pass.old) (pool_of R.pool pass.new).stands }
    ensures live { StandsOnLive R.rule R.pool (pool_of R.pool pass.old) (view_of pass.new) }
    ensures safe { StandsSafely R.rule R.pool (view_of pass.new) }
{
    let number = pass.number as usize;
    shared
        .table
        .shared
        .store::<Pin<R>>(&mut pass.seat, PINS + number, 1);
}

/// Clears the seat's pin word, by one store. The seat stands on nothing then.
///
/// The rule has to allow it: a seat that has an entry of a chunk to read stays pinned. The table has the words of the
/// pool, as for `pin`.
pub fn unpin<R: PoolRule>(shared: &Shared<R>, pass: &mut SeatPass<R>)
    requires wide { first_chunk ≤ shared.now.words }
    requires own { Belongs shared.now pass.old }
    requires allowed { MayUnpin R.rule R.pool (limits_of shared.now) pass.old.seat.id (view_of pass.old) }
    ensures same { StaysSeated R.pool shared.now pass.old pass.new }
    ensures view { pool_of R.pool pass.new ≡ unpinned (pool_of R.pool pass.old) }
{
    let number = pass.number as usize;
    shared
        .table
        .shared
        .store::<Unpin<R>>(&mut pass.seat, PINS + number, 0);
}

/// A look under the pin, by one load. However long ago the seat pinned itself, and whatever the builders have done
/// since: none of the chunks on which it stands was given out, and from then on it stands on each chunk too that, at a
/// moment at which it has this view, is live or young, or old with the seat's grace bit set. Until its next step none
/// of them is free.
pub fn still_stands<R: PoolRule>(shared: &Shared<R>, pass: &mut SeatPass<R>)
    requires own { Belongs shared.now pass.old }
    requires pinned { (pool_of R.pool pass.old).pinned ≡ true }
    ensures same { StaysSeated R.pool shared.now pass.old pass.new }
    ensures pinned { (pool_of R.pool pass.new).pinned ≡ true }
    ensures view { pool_of R.pool pass.new ≡ pinned_on (pool_of R.pool pass.old) (pool_of R.pool pass.new).stands }
    ensures all { StandsOnSafe R.rule R.pool (pool_of R.pool pass.old) (view_of pass.new) }
    ensures safe { StandsSafely R.rule R.pool (view_of pass.new) }
{
    shared.table.shared.load::<Look<R>>(&mut pass.seat, 0);
}
