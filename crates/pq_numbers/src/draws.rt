//! What a seat keeps of a draw. No program makes a value of this type: contracts speak of it.

/// The numbers from `first` on, so many, and whether they were within the limit.
#[derive(Clone, Copy)]
pub struct Draw {
    pub first: u64,
    pub count: u32,
    pub within: bool,
}
