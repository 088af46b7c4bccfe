//! What the words have said so far.

use crate::command::{Branching, Kind};
use crate::queues::Which;

/// What the words behind a command's name have said so far.
#[derive(Clone, Copy, Debug)]
pub struct Settings {
    pub kind: Option<Kind>,
    pub branching: Option<Branching>,
    pub queue: Option<Which>,
    pub workers: Option<u64>,
    pub nodes: Option<u64>,
    pub capacity: Option<u64>,
    pub seed: Option<u64>,
    pub size: Option<u64>,
}
