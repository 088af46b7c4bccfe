//! Laws of searches.

ghost use Rattle.bb_pool.specs.Laws.{NumbersAreNames, NumbersAreWithinSize};

use bb_problem::Problem;

/// Law: nodes that were made under numbers from 0 on, each a child of one with a lesser number and no child twice, are
/// no more than the tree has.
pub(crate) fn numbers_are_names()
    ensures { NumbersAreNames }
{}

/// Law: so they are no more than the size that is known of a problem's tree, where that is below 2^64.
pub(crate) fn numbers_are_within_size<P: Problem>(problem: &P)
    requires valid { P.is_problem problem.now }
    ensures { NumbersAreWithinSize (P.meaning problem.now) }
{
    numbers_are_names();
}
