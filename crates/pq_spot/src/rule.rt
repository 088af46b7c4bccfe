//! The rule of the spot's table.
ghost use Rattle.pq_spot.specs.Spot.{spot_rule};
ghost use Rattle.pq_spot.specs.LawsHold.{spot_laws};

use crate::SpotPart;
use pq_seats::{SeatPass, SeatRule, Shared};

/// The rule of a table with one lock and one spot.
pub struct SpotRule;

impl SeatRule for SpotRule {
    type Own = SpotPart;

    ghost rule = { spot_rule };

    ghost lawful = { spot_laws };
}

/// The pass of a seat of the spot's table.
pub type SpotPass = SeatPass<SpotRule>;

/// The table with one lock and one spot, which its seats share.
pub type SpotTable = Shared<SpotRule>;
