//! What a seat's view names of the heap.
use crate::Node;
use pq_nodes::Guard;
use std::collections::LinkedList;

/// The heap's part of a seat's view. No program makes a value of it: contracts speak of it.
pub struct HuntPart {
    /// One for each node whose lock the seat holds, in the order in which they were taken.
    pub guards: LinkedList<Guard<Node>>,
    /// Under the heap's lock: the size as its word says.
    pub size_stored: u32,
    /// Under the heap's lock: the size as it counts.
    pub size_counted: u32,
    /// The node where the seat looks for the entry of its insert in flight.
    pub place: u32,
    /// 1 from the step that made a node Busy until the seat has its call, else 0.
    pub climbing: u32,
    /// The seat has found its entry gone from the root, so that its letter is in its word.
    pub lettered: bool,
}
