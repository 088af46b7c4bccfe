//! Where the words of the nodes lie in a table: behind the history word, the letters, and words of the queue's own.
ghost use Rattle.std.specs.Prelude.{◌≡◌, ◌≤◌};
ghost use Rattle.pq_nodes.specs.Layout as layout;

/// Nodes lie this many words apart, so that two siblings share a line of eight words.
pub const NODE_WORDS: u32 = 4;

/// The nodes' words are counted from here. No node has the number 0, so that node 1 is the first behind it.
pub const NODE_BASE: u32 = 32;

/// The lock of a node.
pub fn lock_of(node: u32) -> u32
    requires { node ≤ layout.max_node }
    ensures { result ≡ layout.lock_of node }
{
    NODE_BASE + NODE_WORDS * node
}

/// The word of a node.
pub fn word_of(node: u32) -> u32
    requires { node ≤ layout.max_node }
    ensures { result ≡ layout.word_of node }
{
    NODE_BASE + 1 + NODE_WORDS * node
}
