//! What is found of a plan and a proof.

ghost use Rattle.std.specs.Prelude.{Some};
ghost use Rattle.bb_proof.specs.Verdicts.{verdict_text};

use std::fmt;

/// What `verify` finds: the first thing that fails, or that nothing does.
#[derive(Clone, Copy, Debug, PartialEq, Eq)]
pub enum ProofVerdict {
    /// The choice fits, its value is the stated one, and no feasible choice has more.
    Proved,
    /// The choice does not fit; this is its total weight.
    BadWeight(u64),
    /// The choice fits; this is its value, which differs from the stated one.
    BadValue(u32),
    /// The choice fits and has the stated value, but the proof fails first at this place: the token there is wrong,
    /// or the walk needs one there and there is none, or the walk has ended before it.
    BadToken {
        /// 0 to 2,097,152.
        place: u32,
    },
}

impl fmt::Display for ProofVerdict {
    ghost output = { λ verdict. Some (verdict_text verdict) };

    fn fmt<W: fmt::Write>(&self, f: &mut fmt::Formatter<W>) -> fmt::Result {
        match self {
            ProofVerdict::Proved => write!(f, "proved"),
            ProofVerdict::BadWeight(weight) => write!(f, "bad weight {weight}"),
            ProofVerdict::BadValue(value) => write!(f, "bad value {value}"),
            ProofVerdict::BadToken { place } => write!(f, "bad token {place}"),
        }
    }
}
