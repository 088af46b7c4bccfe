//! A history as a text records it.
mod laws;
mod lines;
mod reading;
mod writing;

pub use laws::{history_texts_are_read, written_histories_are_read};
pub use lines::MAX_MARKS;
use pq_model::Mark;
pub use reading::read_history;
use std::marker::Model;
pub use writing::write_history;

/// For how many seats and with which capacity a history was made.
#[derive(Clone, Copy, Debug, PartialEq, Eq)]
pub struct Head {
    /// 1 to `MAX_SEATS` in a text.
    pub seats: u32,
    /// 1 to `MAX_CAPACITY` in a text. There may be more seats than this.
    pub capacity: u32,
}

/// What a text of a history records. Contracts see it as its head, the list of its marks, and the
/// number of entries left.
#[derive(Debug, Drop)]
pub struct History {
    pub head: Head,
    /// The marks in the order of their places; at most `MAX_MARKS` in a text.
    pub marks: Vec<Mark>,
    /// How many entries are said to be left at the end, 0 to `MAX_CAPACITY` in a text. Whether it is so, an
    /// audit says.
    pub left: u32,
}

impl Model for History {
    ghost use Rattle.pq_tape.specs.HistoryText.{Recorded};

    ghost Value = { Recorded };

    ghost view = { λ h. record { head = h.head; marks = h.marks.items; left = h.left } };
}
