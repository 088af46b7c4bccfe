//! A walk by tokens.

ghost use Rattle.std.specs.Prelude.{ℕ, ◌≡◌, List, ◌∷◌, IfOk};
ghost use Rattle.bb_knap.specs.Branching.{tree_of};
ghost use Rattle.bb_proof.specs.Tokens.{is_right, behind};

use bb_knap::KnapWalk;
use pq_io::NoMemory;

/// Tells whether the token may stand at the next node: to close it, where its bound is at least the cost, or to
/// branch, where it is no leaf. O(log n).
pub(crate) fn is_right(walk: &KnapWalk<'_>, cost: u32, token: bool) -> bool
    ensures { (name : List ℕ) (rest : List (List ℕ)) → walk.now.pending ≡ name ∷ rest →
        result ≡ is_right (tree_of walk.now.instance) cost name token }
{
    if token {
        !walk.is_leaf()
    } else {
        cost <= walk.bound()
    }
}

/// Goes on by the token: to the next node's children, or past it.
pub(crate) fn follow(walk: &mut KnapWalk<'_>, token: bool) -> Result<(), NoMemory>
    ensures { IfOk result (λ _. (name : List ℕ) (rest : List (List ℕ)) → walk.old.pending ≡ name ∷ rest →
        walk.new ≡ record walk.old { pending = behind (tree_of walk.old.instance) name token rest }) }
{
    if token {
        walk.enter()?;
    } else {
        walk.skip();
    }
    Ok(())
}
