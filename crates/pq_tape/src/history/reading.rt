//! The text of a history, read.
ghost use Rattle.std.specs.Prelude.{◌≡◌, ◌≤◌, IfOk, Ok};
ghost use Rattle.pq_io.specs.Reading.{Leaves, Gives, line_at};
ghost use Rattle.pq_tape.specs.Limits.{max_marks};
ghost use Rattle.pq_tape.specs.HistoryText.{Recorded, IsWithinLimits};
ghost use Rattle.pq_tape.specs.HistoryReading.{head_of, line_of, marks_in, history_in, history_of};
ghost use Rattle.pq_tape.specs.HistorySpelling.{IsHistoryText};

use crate::history::lines::{HistoryLine, head, line};
use crate::history::{Head, History};
use pq_io::{BadInput, ReadRefusal, TextReader, on_line};
use pq_model::Mark;
use std::alloc::Global;

// Takes the first line.
#[tactic(auto, unfolding(pq_io::specs::Reading::line_at))]
fn next_head(text: &mut TextReader<'_>) -> Result<Head, BadInput>
    ensures { Leaves (λ h. h) result text.new (line_at head_of text.old) }
{
    let mut words = text.next_line()?;
    let number = words.line();
    on_line(number, head(&mut words))
}

// Takes the line behind this many marks.
#[tactic(auto, unfolding(pq_io::specs::Reading::line_at))]
fn next_history_line(
    text: &mut TextReader<'_>,
    place: usize,
    seats: u32,
) -> Result<HistoryLine, BadInput>
    requires { place ≤ max_marks }
    ensures { Leaves (λ l. l) result text.new (line_at (line_of place seats) text.old) }
{
    let mut words = text.next_line()?;
    let number = words.line();
    on_line(number, line(&mut words, place, seats))
}

// Takes the lines behind the first: the marks, and how many entries are left.
fn next_marks(
    alloc: Global,
    text: &mut TextReader<'_>,
    seats: u32,
) -> Result<(Vec<Mark>, u32), ReadRefusal>
    ensures { Gives (λ r. record { value = r.0.items; rest = r.1 }) result
        (marks_in 0 seats text.old.lines text.old.end) }
{
    let mut marks = Vec::new(alloc);
    loop {
        match next_history_line(text, marks.len(), seats)? {
            HistoryLine::Marked(mark) => marks.push(mark)?,
            HistoryLine::Ends(left) => {
                text.finish()?;
                return Ok((marks, left));
            }
        }
    }
}

// Takes the lines of a history.
#[tactic(auto, unfolding(crate::specs::HistoryReading::history_in))]
fn next_history(alloc: Global, text: &mut TextReader<'_>) -> Result<History, ReadRefusal>
    ensures { Gives (λ h. h) result (history_in text.old) }
{
    let head = next_head(text)?;
    let (marks, left) = next_marks(alloc, text, head.seats)?;
    Ok(History { head, marks, left })
}

/// The history that the text records: a line `seats S capacity C`, a line for each mark in the order of
/// places, and a line `left N`, which ends the text.
///
/// S is 1 to `MAX_SEATS`, C 1 to `MAX_CAPACITY` and N 0 to `MAX_CAPACITY`. A mark's line begins with its place,
/// which is the number of marks before it, and its seat, 1 to S. Then stands `+ key id done`, `+ key id full`,
/// `- got key id`, `- empty`, `< limit got key id`, `< limit empty` or `< limit above`, where a key is 0 to
/// 67,108,863, an id 0 to 4,194,303 and a limit 0 to 67,108,864. There are at most `MAX_MARKS` marks: the next is
/// `Extra`, once its place is right. A line that begins with neither `left` nor a number is a `Number` fault. A text
/// of more bytes than an input may have is `TooLarge`, at line 0.
///
/// A text that records no history is refused with its first fault: the number of the line, and the cause.
/// Linear in the text, which is not copied; it takes memory for the marks alone.
pub fn read_history(alloc: Global, bytes: &[u8]) -> Result<History, ReadRefusal>
    // Which history, and which fault it is.
    ensures exact { Gives (λ h. h) result (history_of bytes.now) }
    // What is read keeps the limits.
    ensures limits { IfOk result (λ h. IsWithinLimits h) }
    // What is read is spelled so.
    ensures spelled { IfOk result (λ h. IsHistoryText bytes.now h) }
    // What is spelled so is read, unless memory runs out.
    ensures read { (h : Recorded) → IsHistoryText bytes.now h → Gives (λ j. j) result (Ok h) }
{
    whole_history(alloc, bytes)
}

#[tactic(auto, unfolding(crate::specs::HistoryReading::history_of))]
fn whole_history(alloc: Global, bytes: &[u8]) -> Result<History, ReadRefusal>
    ensures { Gives (λ h. h) result (history_of bytes.now) }
{
    next_history(alloc, &mut TextReader::open(bytes)?)
}
