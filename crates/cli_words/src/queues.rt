//! The kinds of queues: their names, and what each of them allows a command.

ghost use Rattle.std.specs.Prelude.{◌≡◌, true, IfSome};
ghost use Rattle.cli_words.specs.Queues.{profile_of, queue_for, which_of, with_threads};

use bb_shared::MAX_NODES;
use pq_model::{MAX_CAPACITY, MAX_SEATS};

/// Which queue a command uses.
#[derive(Clone, Copy, Debug, PartialEq, Eq)]
pub enum Which {
    /// A sorted multiset with one caller.
    Plain,
    /// The heap whose nodes have locks of their own, with up to 16 callers.
    Hunt,
}

/// What a kind of queue allows a command, and what a command gets on it where the words do not say.
#[derive(Clone, Copy, Debug)]
pub struct Profile {
    /// How many callers a queue may have.
    pub most_callers: u32,
    /// How many of them work at a search or a drill.
    pub default_workers: u32,
    /// How many entries a queue may take.
    pub most_capacity: u32,
    /// How many a traced one takes.
    pub default_capacity: u32,
    /// How many nodes a search may be allowed to make.
    pub most_nodes: u32,
    /// How many it is allowed.
    pub default_nodes: u32,
    /// The callers are threads.
    pub needs_threads: bool,
}

// The queue where none is said.
const DEFAULT_QUEUE: Which = Which::Hunt;

/// The queue of this name.
pub fn which_of(word: &[u8]) -> Option<Which>
    ensures { result ≡ which_of word.now }
{
    if word == b"plain".as_slice() {
        Some(Which::Plain)
    } else if word == b"hunt".as_slice() {
        Some(Which::Hunt)
    } else {
        None
    }
}

/// The queue that is said.
pub fn queue_for(said: Option<Which>) -> Which
    ensures { result ≡ queue_for said }
{
    said.unwrap_or(DEFAULT_QUEUE)
}

/// The queue, where it needs threads.
pub fn with_threads(queue: Which) -> Option<Which>
    ensures exact { result ≡ with_threads queue }
    ensures threads { IfSome result (λ q. (profile_of q).needs_threads ≡ true) }
{
    if queue.profile().needs_threads {
        Some(queue)
    } else {
        None
    }
}

impl Which {
    /// What a queue of this kind allows.
    pub fn profile(self) -> Profile
        ensures { result ≡ profile_of self }
    {
        match self {
            Which::Plain => Profile {
                most_callers: 1,
                default_workers: 1,
                most_capacity: MAX_CAPACITY,
                default_capacity: 1_024,
                most_nodes: MAX_NODES,
                default_nodes: 100_000,
                needs_threads: false,
            },
            Which::Hunt => Profile {
                most_callers: MAX_SEATS,
                default_workers: 4,
                most_capacity: MAX_CAPACITY,
                default_capacity: 1_024,
                most_nodes: MAX_NODES,
                default_nodes: 100_000,
                needs_threads: true,
            },
        }
    }
}
