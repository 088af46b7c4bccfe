//! The text of a history, written.
ghost use Rattle.std.specs.Prelude.{◌≡◌, ◌+◌, ◌≤◌, ◌++◌, ◌∷◌, [], All, Some, length, decimal, is_err, IfSome, OnOk, OnErr};
ghost use Rattle.pq_io.specs.Streams.{Rose, faults_after};
ghost use Rattle.pq_io.specs.Gathering.{WritesPrefix};
ghost use Rattle.pq_io.specs.Writing.{words_text};
ghost use Rattle.pq_model.specs.declared.marks.Mark.{Mark};
ghost use Rattle.pq_tape.specs.Limits.{buffer_room, longest_line};
ghost use Rattle.pq_tape.specs.Pending.{IsStillPending};
ghost use Rattle.pq_tape.specs.HistoryText.{HasLine, head_words, call_words, mark_words, left_words, history_text};

use crate::history::Head;
use arrayvec::ArrayString;
use itoa::Buffer;
use pq_io::{Failed, Sink, put_all};
use pq_model::{Act, Mark, Reply};
use pq_words::Entry;

// How many bytes are held back before they go to the sink together.
const BUFFER_ROOM: usize = 4_096;

// More than the longest line has.
const LONGEST_LINE: usize = 128;

// Lines that are written, and did not go to the sink yet.
type Unsent = ArrayString<BUFFER_ROOM>;

fn push_number(unsent: &mut Unsent, number: u64)
    requires { length unsent.old.bytes + 20 ≤ buffer_room }
    ensures text { unsent.new.bytes ≡ unsent.old.bytes ++ decimal number }
    ensures short { length unsent.new.bytes ≤ length unsent.old.bytes + 20 }
{
    unsent.push_str(Buffer::new().format(number));
}

// A key, a space, and an id.
fn push_entry(unsent: &mut Unsent, entry: Entry)
    requires { length unsent.old.bytes + 41 ≤ buffer_room }
    ensures text { unsent.new.bytes ≡ unsent.old.bytes ++ decimal entry.key ++ 32 ∷ decimal entry.id }
    ensures short { length unsent.new.bytes ≤ length unsent.old.bytes + 41 }
{
    push_number(unsent, u64::from(entry.key));
    unsent.push_str(" ");
    push_number(unsent, u64::from(entry.id));
}

// `+`, an entry, and how it was answered.
fn push_insert(unsent: &mut Unsent, added: Entry, answer: &str)
    requires { length unsent.old.bytes + 43 + length answer.now ≤ buffer_room }
    ensures text { unsent.new.bytes ≡
        unsent.old.bytes ++ 43 ∷ 32 ∷ (decimal added.key ++ 32 ∷ (decimal added.id ++ answer.now)) }
    ensures short { length unsent.new.bytes ≤ length unsent.old.bytes + 43 + length answer.now }
{
    unsent.push_str("+ ");
    push_entry(unsent, added);
    unsent.push_str(answer);
}

// `<` and a limit.
fn push_limit(unsent: &mut Unsent, limit: u32)
    requires { length unsent.old.bytes + 22 ≤ buffer_room }
    ensures text { unsent.new.bytes ≡ unsent.old.bytes ++ 60 ∷ 32 ∷ decimal limit }
    ensures short { length unsent.new.bytes ≤ length unsent.old.bytes + 22 }
{
    unsent.push_str("< ");
    push_number(unsent, u64::from(limit));
}

// What stands behind the seat.
fn push_call(unsent: &mut Unsent, act: Act, reply: Reply)
    requires room { length unsent.old.bytes + 80 ≤ buffer_room }
    requires line { HasLine act reply }
    ensures text { unsent.new.bytes ≡ unsent.old.bytes ++ words_text (call_words act reply) }
    ensures short { length unsent.new.bytes ≤ length unsent.old.bytes + 80 }
{
    match (act, reply) {
        (Act::Insert(added), Reply::Done) => push_insert(unsent, added, " done"),
        (Act::Insert(added), Reply::Full) => push_insert(unsent, added, " full"),
        (Act::Remove, Reply::Got(taken)) => {
            unsent.push_str("- got ");
            push_entry(unsent, taken);
        }
        (Act::Remove, Reply::Empty) => unsent.push_str("- empty"),
        (Act::RemoveBelow(limit), Reply::Got(taken)) => {
            push_limit(unsent, limit);
            unsent.push_str(" got ");
            push_entry(unsent, taken);
        }
        (Act::RemoveBelow(limit), Reply::Empty) => {
            push_limit(unsent, limit);
            unsent.push_str(" empty");
        }
        (Act::RemoveBelow(limit), Reply::Above) => {
            push_limit(unsent, limit);
            unsent.push_str(" above");
        }
        _ => unreachable!(),
    }
}

// The first line.
fn push_head(unsent: &mut Unsent, head: Head)
    requires { length unsent.old.bytes + longest_line ≤ buffer_room }
    ensures { unsent.new.bytes ≡ unsent.old.bytes ++ words_text (head_words head) ++ 10 ∷ [] }
{
    unsent.push_str("seats ");
    push_number(unsent, u64::from(head.seats));
    unsent.push_str(" capacity ");
    push_number(unsent, u64::from(head.capacity));
    unsent.push_str("\n");
}

// The line of the mark with this place.
fn push_mark(unsent: &mut Unsent, place: u64, mark: Mark)
    requires room { length unsent.old.bytes + longest_line ≤ buffer_room }
    requires line { HasLine mark.act mark.reply }
    ensures { unsent.new.bytes ≡ unsent.old.bytes ++ words_text (mark_words place mark) ++ 10 ∷ [] }
{
    push_number(unsent, place);
    unsent.push_str(" ");
    push_number(unsent, u64::from(mark.seat));
    unsent.push_str(" ");
    push_call(unsent, mark.act, mark.reply);
    unsent.push_str("\n");
}

// The last line.
fn push_left(unsent: &mut Unsent, left: u32)
    requires { length unsent.old.bytes + longest_line ≤ buffer_room }
    ensures { unsent.new.bytes ≡ unsent.old.bytes ++ words_text (left_words left) ++ 10 ∷ [] }
{
    unsent.push_str("left ");
    push_number(unsent, u64::from(left));
    unsent.push_str("\n");
}

// Makes room for one more line: where there is too little, what is unsent goes to the sink.
fn make_room<K: Sink>(sink: &mut K, unsent: &mut Unsent) -> Result<(), Failed>
    ensures room { OnOk result (length unsent.new.bytes + longest_line ≤ buffer_room) }
    ensures kept { OnOk result
        (IsStillPending (K.written sink.old) unsent.old.bytes (K.written sink.new) unsent.new.bytes) }
    ensures counted { K.faults sink.old ≤ K.faults sink.new }
    ensures once { K.faults sink.new ≡ faults_after (is_err result) (K.faults sink.old) }
    ensures failed { OnErr result (Rose (K.faults sink.old) (K.faults sink.new)) }
    ensures prefix { OnErr result (IfSome (K.written sink.old)
        (λ before. WritesPrefix before unsent.old.bytes (K.written sink.new))) }
{
    if unsent.len() + LONGEST_LINE > BUFFER_ROOM {
        put_all(sink, unsent.as_str().as_bytes())?;
        unsent.clear();
    }
    Ok(())
}

/// Writes the text of a history: the line `seats S capacity C`, a line for each mark with its place, and
/// the line `left N`.
///
/// Each mark's act and reply have to be a pair that has a line: an insert answered by `Done` or `Full`, a
/// removal by `Got` or `Empty`, or a removal below a limit, which is at most `KEY_LIMIT`, by `Got`, `Empty` or
/// `Above`. `Failed` comes only where the sink's count of faults rose in this call,
/// and then a prefix of the text, and not all of it, was written. The first write that fails ends it. Linear in the text. It takes no memory:
/// lines are held back in 4,096 bytes of the call's own, which go to the sink together.
pub fn write_history<K: Sink>(
    head: Head,
    marks: &[Mark],
    left: u32,
    sink: &mut K,
) -> Result<(), Failed>
    requires lines { All (λ (x : Mark). HasLine x.act x.reply) marks.now }
    ensures appended { OnOk result (IfSome (K.written sink.old)
        (λ before. K.written sink.new ≡ Some (before ++ history_text head marks.now left))) }
    ensures counted { K.faults sink.old ≤ K.faults sink.new }
    ensures once { K.faults sink.new ≡ faults_after (is_err result) (K.faults sink.old) }
    ensures failed { OnErr result (Rose (K.faults sink.old) (K.faults sink.new)) }
    ensures prefix { OnErr result (IfSome (K.written sink.old)
        (λ before. WritesPrefix before (history_text head marks.now left) (K.written sink.new))) }
{
    let mut unsent = ArrayString::new();
    push_head(&mut unsent, head);
    let mut place = 0;
    for mark in marks {
        make_room(sink, &mut unsent)?;
        push_mark(&mut unsent, place, *mark);
        place += 1;
    }
    make_room(sink, &mut unsent)?;
    push_left(&mut unsent, left);
    put_all(sink, unsent.as_str().as_bytes())
}
