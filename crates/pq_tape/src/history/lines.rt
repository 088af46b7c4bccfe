//! The lines of a text of a history, read.
ghost use Rattle.std.specs.Prelude.{◌≡◌, ◌≤◌};
ghost use Rattle.pq_tape.specs.Limits.{max_marks};
ghost use Rattle.pq_tape.specs.HistoryReading.{head_of, answer_of, insert_of, got_of, bare_of, removed_of, remove_of};
ghost use Rattle.pq_tape.specs.HistoryReading.{limited_of, below_of, call_of, mark_of, placed_of, ends_of, line_of};

use crate::history::Head;
use pq_io::{Cause, WordReader, digits};
use pq_model::{Act, MAX_CAPACITY, MAX_SEATS, Mark, Reply, read_entry};
use pq_words::KEY_LIMIT;

/// The most marks that a text may have.
pub const MAX_MARKS: usize = 1_048_576;

/// A line of a text of a history, behind the first.
#[derive(Clone, Copy, Debug)]
pub(crate) enum HistoryLine {
    /// A mark.
    Marked(Mark),
    /// The last line: how many entries are left.
    Ends(u32),
}

/// `seats S capacity C`.
#[tactic(auto, unfolding(crate::specs::HistoryReading::head_of))]
pub(crate) fn head(words: &mut WordReader<'_>) -> Result<Head, Cause>
    ensures { result ≡ head_of words.old.words }
{
    words.fixed(b"seats")?;
    let seats = words.number(1, MAX_SEATS as u64)?;
    words.fixed(b"capacity")?;
    let capacity = words.number(1, MAX_CAPACITY as u64)?;
    words.finish()?;
    Ok(Head {
        seats: seats as u32,
        capacity: capacity as u32,
    })
}

// How an insert was answered.
#[tactic(auto, unfolding(crate::specs::HistoryReading::answer_of))]
fn answer(word: &[u8]) -> Result<Reply, Cause>
    ensures { result ≡ answer_of word.now }
{
    if word == b"done".as_slice() {
        Ok(Reply::Done)
    } else if word == b"full".as_slice() {
        Ok(Reply::Full)
    } else {
        Err(Cause::Word)
    }
}

// What stands behind `+`.
#[tactic(auto, unfolding(crate::specs::HistoryReading::insert_of))]
fn insert(words: &mut WordReader<'_>, seat: u32) -> Result<Mark, Cause>
    ensures { result ≡ insert_of seat words.old.words }
{
    let added = read_entry(words)?;
    let reply = answer(words.word()?)?;
    words.finish()?;
    Ok(Mark {
        seat,
        act: Act::Insert(added),
        reply,
    })
}

// What stands behind `got`.
#[tactic(auto, unfolding(crate::specs::HistoryReading::got_of))]
fn got(words: &mut WordReader<'_>, seat: u32, act: Act) -> Result<Mark, Cause>
    ensures { result ≡ got_of seat act words.old.words }
{
    let taken = read_entry(words)?;
    words.finish()?;
    Ok(Mark {
        seat,
        act,
        reply: Reply::Got(taken),
    })
}

// What stands behind an answer that tells no entry.
#[tactic(auto, unfolding(crate::specs::HistoryReading::bare_of))]
fn bare(words: &mut WordReader<'_>, seat: u32, act: Act, reply: Reply) -> Result<Mark, Cause>
    ensures { result ≡ bare_of seat act reply words.old.words }
{
    words.finish()?;
    Ok(Mark { seat, act, reply })
}

// How a removal was answered, by this word and those behind it.
#[tactic(auto, unfolding(crate::specs::HistoryReading::removed_of))]
fn removed(words: &mut WordReader<'_>, seat: u32, act: Act, word: &[u8]) -> Result<Mark, Cause>
    ensures { result ≡ removed_of seat act word.now words.old.words }
{
    if word == b"got".as_slice() {
        got(words, seat, act)
    } else if word == b"empty".as_slice() {
        bare(words, seat, act, Reply::Empty)
    } else {
        Err(Cause::Word)
    }
}

// What stands behind `-`.
#[tactic(auto, unfolding(crate::specs::HistoryReading::remove_of))]
fn remove(words: &mut WordReader<'_>, seat: u32) -> Result<Mark, Cause>
    ensures { result ≡ remove_of seat words.old.words }
{
    let word = words.word()?;
    removed(words, seat, Act::Remove, word)
}

// How a removal below a limit was answered, by this word and those behind it.
#[tactic(auto, unfolding(crate::specs::HistoryReading::limited_of))]
fn limited(words: &mut WordReader<'_>, seat: u32, act: Act, word: &[u8]) -> Result<Mark, Cause>
    ensures { result ≡ limited_of seat act word.now words.old.words }
{
    if word == b"above".as_slice() {
        bare(words, seat, act, Reply::Above)
    } else {
        removed(words, seat, act, word)
    }
}

// What stands behind `<`.
#[tactic(auto, unfolding(crate::specs::HistoryReading::below_of))]
fn below(words: &mut WordReader<'_>, seat: u32) -> Result<Mark, Cause>
    ensures { result ≡ below_of seat words.old.words }
{
    let limit = words.number(0, KEY_LIMIT as u64)? as u32;
    let word = words.word()?;
    limited(words, seat, Act::RemoveBelow(limit), word)
}

// What stands behind the seat, by this word and those behind it.
#[tactic(auto, unfolding(crate::specs::HistoryReading::call_of))]
fn call(words: &mut WordReader<'_>, seat: u32, word: &[u8]) -> Result<Mark, Cause>
    ensures { result ≡ call_of seat word.now words.old.words }
{
    if word == b"+".as_slice() {
        insert(words, seat)
    } else if word == b"-".as_slice() {
        remove(words, seat)
    } else if word == b"<".as_slice() {
        below(words, seat)
    } else {
        Err(Cause::Word)
    }
}

// What stands behind the place.
#[tactic(auto, unfolding(crate::specs::HistoryReading::mark_of))]
fn mark(words: &mut WordReader<'_>, seats: u32) -> Result<Mark, Cause>
    ensures { result ≡ mark_of seats words.old.words }
{
    let seat = words.number(1, u64::from(seats))? as u32;
    let word = words.word()?;
    call(words, seat, word)
}

// The line of the mark with this place, of which the first word is taken.
#[tactic(auto, unfolding(crate::specs::HistoryReading::placed_of))]
fn placed(
    words: &mut WordReader<'_>,
    word: &[u8],
    place: usize,
    seats: u32,
) -> Result<HistoryLine, Cause>
    requires { place ≤ max_marks }
    ensures { result ≡ placed_of place seats word.now words.old.words }
{
    digits(word, place as u64, place as u64)?;
    if place >= MAX_MARKS {
        return Err(Cause::Extra);
    }
    Ok(HistoryLine::Marked(mark(words, seats)?))
}

// What stands behind `left`.
#[tactic(auto, unfolding(crate::specs::HistoryReading::ends_of))]
fn ends(words: &mut WordReader<'_>) -> Result<HistoryLine, Cause>
    ensures { result ≡ ends_of words.old.words }
{
    let left = words.number(0, MAX_CAPACITY as u64)?;
    words.finish()?;
    Ok(HistoryLine::Ends(left as u32))
}

/// The line behind this many marks.
#[tactic(auto, unfolding(crate::specs::HistoryReading::line_of))]
pub(crate) fn line(
    words: &mut WordReader<'_>,
    place: usize,
    seats: u32,
) -> Result<HistoryLine, Cause>
    requires { place ≤ max_marks }
    ensures { result ≡ line_of place seats words.old.words }
{
    let word = words.word()?;
    if word == b"left".as_slice() {
        ends(words)
    } else {
        placed(words, word, place, seats)
    }
}
