//! What is found of a choice.

ghost use Rattle.std.specs.Prelude.{Some};
ghost use Rattle.bb_knap.specs.Verdicts.{verdict_text};

use std::fmt;

/// What is found of a choice of items and the value that is stated for it.
#[derive(Clone, Copy, Debug, PartialEq, Eq)]
pub enum KnapVerdict {
    /// The choice fits, and its value is the stated one.
    Feasible,
    /// The choice does not fit; this is its total weight.
    BadWeight(u64),
    /// The choice fits; this is its value, which differs from the stated one.
    BadValue(u32),
}

impl fmt::Display for KnapVerdict {
    ghost output = { λ verdict. Some (verdict_text verdict) };

    fn fmt<W: fmt::Write>(&self, f: &mut fmt::Formatter<W>) -> fmt::Result {
        match self {
            KnapVerdict::Feasible => write!(f, "feasible"),
            KnapVerdict::BadWeight(weight) => write!(f, "bad weight {weight}"),
            KnapVerdict::BadValue(value) => write!(f, "bad value {value}"),
        }
    }
}
