//! What a node of the heap counts as.
use pq_words::Entry;

/// What a node of the heap counts as. Rules and contracts speak of it; no program makes one.
#[derive(Clone, Copy, Debug, PartialEq, Eq, Hash)]
pub enum Node {
    /// Nothing.
    Empty,
    /// This entry, which is in the multiset.
    Available(Entry),
    /// The entry of an insert of this seat, which has no place in the history yet.
    Busy(u32, Entry),
    /// The hole of a remover that sifts. The remover has this entry in hand, and it is in the multiset.
    Hole(Entry),
}
