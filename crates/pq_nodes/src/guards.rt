//! What the view of a lock's holder says of a node.

/// What the view of a lock's holder says of the node under it: its word as it is stored, and what the node counts as.
/// No program makes a value of it: contracts speak of it.
pub struct Guard<N> {
    pub node: u32,
    pub stored: u64,
    pub counted: N,
}
