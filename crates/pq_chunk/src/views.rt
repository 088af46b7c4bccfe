//! What a seat's view names of the chunk queue. The rule of a table speaks of these values; no program makes one.
use pq_pool::PoolView;
use pq_words::Entry;
use std::collections::LinkedList;

/// What a view names of the front word.
pub struct FrontView {
    /// A load showed that an entry was left in the first chunk, and the seat has not drawn since.
    pub armed: bool,
    /// The last front word that the seat has read.
    pub word: u64,
    /// How many front words it has read.
    pub loads: u64,
}

/// How far an insert has come that is claimed. Its entry is the one in flight, until its mark is made.
pub enum Stage {
    /// The seat has no insert, or only its claim.
    Idle,
    /// It walks, and stands at a chunk that was the first.
    AtFirst {
        chunk: u32,
    },
    /// It stands at a chunk that links to another, and whose high is not above the entry.
    Past {
        chunk: u32,
        entry: Entry,
    },
    /// It came to this insert chunk by a link. The chunk's low is not above the entry.
    At {
        chunk: u32,
        entry: Entry,
    },
    /// The chunk's high is not below the entry either.
    Within {
        chunk: u32,
        entry: Entry,
    },
    /// A load of the chunk's count showed that a place was left, and the seat has not drawn since.
    Armed {
        chunk: u32,
        entry: Entry,
    },
    /// It has drawn this place of the chunk.
    Drawn {
        chunk: u32,
        place: u32,
        entry: Entry,
    },
    /// The place is Pending.
    Waiting {
        chunk: u32,
        place: u32,
        entry: Entry,
    },
    /// The place is Pending, and the insert's mark is made.
    Marked {
        chunk: u32,
        place: u32,
        entry: Entry,
    },
    /// It has stored an offer since it last took a letter.
    Offered,
}

/// What a removal has drawn and not loaded yet, or is about to draw by an exchange.
pub enum Reading {
    Nothing,
    /// The entry at this place of a chunk that was the first.
    Reads {
        chunk: u32,
        place: u32,
        entry: Entry,
    },
}

/// What the view of the builder names of the chunks and of the offers.
pub struct BuilderView {
    /// The live chunks that are not in the chain: new ones that are not linked yet, and old ones that are not retired.
    pub outside: LinkedList<u64>,
    /// The chunk of the chain that it freezes.
    pub freezing: Option<u32>,
    /// Words that it has loaded or stored and that only it changes: which, and its value.
    pub notes: LinkedList<(u64, u64)>,
    /// The offers that it has read and neither accepted nor sent back: whose, and the entry.
    pub offers: LinkedList<(u32, Entry)>,
}

/// What a view holds of the chunk queue's own.
pub struct ChunkView {
    pub pool: PoolView,
    pub front: FrontView,
    pub stage: Stage,
    pub reading: Reading,
    pub builder: BuilderView,
}
