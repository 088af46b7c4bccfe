//! What a command may ask of a problem.

use cli_words::Limits;

/// What is to be done with a problem, where that needs no threads.
#[derive(Clone, Copy, Debug)]
pub enum Task {
    /// Search for a best plan on a plain queue, within these limits.
    Solve(Limits),
    /// Bound the root.
    Bound,
    /// Judge a plan.
    Check,
}
