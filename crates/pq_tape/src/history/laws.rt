//! Laws of texts of histories.
ghost use Rattle.std.specs.Prelude.{◌≡◌, ◌↔◌, List, ℕ, Ok};
ghost use Rattle.pq_tape.specs.HistoryText.{Recorded, IsWithinLimits, history_text};
ghost use Rattle.pq_tape.specs.HistoryReading.{history_of};
ghost use Rattle.pq_tape.specs.HistorySpelling.{IsHistoryText};

/// Law: bytes read as a history exactly where they are a text of it.
pub fn history_texts_are_read()
    ensures { (bytes : List ℕ) (h : Recorded) → (history_of bytes ≡ Ok h) ↔ IsHistoryText bytes h }
{}

/// Law: what is written for a history within the limits reads as this
/// history.
pub fn written_histories_are_read()
    ensures { (h : Recorded) → IsWithinLimits h → history_of (history_text h.head h.marks h.left) ≡ Ok h }
{}
