//! Checks that the tests of each queue run on it. They are written once, and proved from the interface alone.
#![tactic(auto)]

mod answers;
mod aside;
mod audits;
mod calls;
mod held;
mod late;
mod lists;
mod rows;
mod sorting;
mod wanted;

pub use answers::answers_are;
pub use aside::{Aside, Nothing};
pub use audits::{AuditFault, audited};
pub use calls::{CheckFault, Made, leaves};
pub use held::{HeldCall, HeldFault, beside_a_held_call};
pub use late::LateHold;
pub use lists::against_a_list;
pub use rows::{Row, one_seat_rows, row_is_answered};
pub use sorting::sorted;
pub use wanted::Wanted;
