//! The smallest queue on the base of all shared queues: one entry, always the same, under one lock. It is the base's
//! own test, and shows how a rule is written. It makes a step of each kind for which the base has a law.
#![tactic(auto)]

mod helps;
mod plays;
mod rule;
mod spot;
#[cfg(test)]
mod tests;
mod views;

pub use helps::{accept, glance, grab, send_back, tell};
pub use rule::{SpotPass, SpotRule, SpotTable};
pub use spot::{offer, offer_again, open, remove, settle, shut, try_hold, unhold};
pub use views::{Settled, SpotPart};
