//! What tests call at the points of a call.
use std::sync::Wait;

/// Where in its work a call stands, as it tells a gate. Each point says who stands there, and what it
/// holds then.
#[derive(Clone, Copy, Debug, PartialEq, Eq, Hash)]
pub enum Point {
    /// An insert into the heap whose entry is Busy at its leaf. It holds no lock.
    HeapBusy,
    /// A remover of the heap whose hole has left the root. It holds the hole's lock.
    HeapSift,
    /// An insert into the mound that has chosen its node. It holds no lock.
    MoundPath,
    /// A moundify whose list went to a left child. It holds that node's lock.
    MoundLeft,
    /// An insert into the chunk queue that has drawn a place and not written it. It holds its pin.
    ChunkDrawn,
    /// A builder of the chunk queue that has frozen the second chunk. It holds the builder's word.
    ChunkFrozen,
    /// An insert into the chunk queue whose offer stands. It holds neither a pin nor the builder's word.
    ChunkOffered,
    /// A worker of a search that holds a node taken from the store.
    WorkerNode,
}

/// What is called at the points of a call, and promises nothing. With a gate a test holds one call at a
/// point until another has answered.
pub trait Gate: Sync + Drop {
    /// Is at this point. It may wait for another caller.
    fn at<R: Wait + Sync>(&self, rt: &R, point: Point);
}

/// The gate that does nothing.
#[derive(Clone, Copy, Debug, PartialEq, Eq)]
pub struct Open;

impl Gate for Open {
    fn at<R: Wait + Sync>(&self, _rt: &R, _point: Point) {}
}

impl<G: Gate> Gate for &G {
    fn at<R: Wait + Sync>(&self, rt: &R, point: Point) {
        (**self).at(rt, point);
    }
}
