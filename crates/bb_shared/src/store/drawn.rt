//! What a draw of numbers answers.

/// What a draw answers.
#[derive(Clone, Copy, Debug, PartialEq, Eq)]
pub enum Drawn {
    /// The first of the numbers, which are the caller's alone.
    First(u32),
    /// The limit was exceeded: with these, so many would have been made. `asked` is above the limit and below 2^33.
    Over { asked: u64 },
}
