//! What a view holds of the spot.

/// What a seat knows of the spot. No program makes one.
pub struct SpotPart {
    /// Under the lock the spot's word as it is stored, and what the spot counts as. Else both are 0.
    pub stored: u64,
    pub counted: u64,
    /// Whether the seat has offered the entry since it last took a letter or placed its own insert.
    pub out: bool,
}

/// What has become of an offer.
#[derive(Clone, Copy, Debug, PartialEq, Eq)]
pub enum Settled {
    /// The insert has this place.
    Placed(u32),
    /// It is in flight still, and may be placed by another seat.
    Waits,
    /// It was sent back: it is in flight, and nobody places it until it is offered again.
    Back,
}
