//! The limits of a search.

/// How many work at a search, how many nodes it may make, and how many its queue takes.
#[derive(Clone, Copy, Debug)]
pub struct Limits {
    pub workers: u32,
    pub nodes: u32,
    pub capacity: u32,
}
