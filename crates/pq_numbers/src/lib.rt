//! What tables share whose seats draw numbers: each number is drawn once, and has words of its own. It has definitions,
//! lemmas and laws, and no call.
#![tactic(auto)]

mod draws;

pub use draws::Draw;
