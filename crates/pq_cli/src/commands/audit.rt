//! `audit`: the verdict on a history.

ghost use Rattle.std.specs.Prelude.{◌≡◌, IfOk, MatchOption};
ghost use Rattle.pq_tape.specs.HistoryText.{IsWithinLimits};
ghost use Rattle.pq_cli.specs.Auditing.{IsTrue, IsBadAt};
ghost use Rattle.pq_cli.specs.Commands.{auditing};
ghost use Rattle.pq_cli.specs.Texts.{legal_text, bad_text};
ghost use Rattle.pq_cli.specs.Work.{Meets};

use crate::answer::Answer;
use crate::labelled::labelled;
use crate::refusal::Refusal;
use crate::status::Status;
use pq_io::NoMemory;
use pq_model::Verdict;
use pq_tape::{History, read_history};
use std::alloc::Global;

/// The verdict on the history that the bytes read as.
pub fn audit(alloc: Global, bytes: &[u8]) -> Result<Answer, Refusal>
    ensures { Meets auditing bytes.now result }
{
    let history = read_history(alloc, bytes)?;
    match bad_place(alloc, &history)? {
        None => Ok(Answer::Text {
            status: Status::Ok,
            text: legal_text(alloc, history.left)?,
        }),
        Some(place) => Ok(Answer::Text {
            status: Status::Illegal,
            text: bad_text(alloc, place)?,
        }),
    }
}

// The first place that is no step; where the stated number of entries left is wrong, the number of marks.
fn bad_place(alloc: Global, history: &History) -> Result<Option<u32>, NoMemory>
    requires { IsWithinLimits history.now }
    ensures { IfOk result (λ found. MatchOption found (IsTrue history.now) (λ place. IsBadAt history.now place)) }
{
    let head = history.head;
    let marks = history.marks.as_slice();
    match pq_model::audit(alloc, marks, head.seats, head.capacity)? {
        Verdict::Bad { place } => Ok(Some(place)),
        Verdict::Legal { left } => {
            if left == history.left {
                Ok(None)
            } else {
                Ok(Some(marks.len() as u32))
            }
        }
    }
}

// The history is legal, and so many entries are left.
fn legal_text(alloc: Global, left: u32) -> Result<Vec<u8>, NoMemory>
    ensures { IfOk result (λ text. text.items ≡ legal_text left) }
{
    labelled(alloc, b"legal\nleft", &[left])
}

// The history is bad at this place.
fn bad_text(alloc: Global, place: u32) -> Result<Vec<u8>, NoMemory>
    ensures { IfOk result (λ text. text.items ≡ bad_text place) }
{
    labelled(alloc, b"bad", &[place])
}
