//! The one history that tapes make together.
ghost use Rattle.std.specs.Prelude.{◌≡◌, ◌≤◌, ◌<◌, All, length, IfOk};
ghost use Rattle.pq_model.specs.declared.passes.Call.{Call};
ghost use Rattle.pq_tape.specs.Tapes.{Taped, IsComplete, IsByPlace, places, with_calls, with_tapes};

use crate::Tape;
use pq_io::NoMemory;
use pq_model::{Act, Call, Mark, Reply};
use std::alloc::Global;

// What stands at a place until its call is put there.
const NO_CALL: Mark = Mark {
    seat: 0,
    act: Act::Remove,
    reply: Reply::Empty,
};

// How many calls there are. Where there are more than a `usize` counts, no memory would hold them.
fn count_calls(tapes: &[Tape]) -> Result<usize, NoMemory>
    ensures { IfOk result (λ n. n ≡ length (places tapes.now)) }
{
    let mut count: usize = 0;
    for tape in tapes {
        count = count.checked_add(tape.calls.len()).ok_or(NoMemory)?;
    }
    Ok(count)
}

// Puts each call of this seat at its place.
fn put_calls(marks: &mut Vec<Mark>, seat: u32, calls: &[Call])
    requires { All (λ (c : Call). c.place < length marks.old.items) calls.now }
    ensures { marks.new.items ≡ with_calls seat calls.now marks.old.items }
{
    for call in calls {
        marks[call.place as usize] = Mark {
            seat,
            act: call.act,
            reply: call.reply,
        };
    }
}

// Puts each call of these tapes at its place.
fn put_tapes(marks: &mut Vec<Mark>, tapes: &[Tape])
    requires { All (λ (t : Taped). All (λ (c : Call). c.place < length marks.old.items) t.lane.calls) tapes.now }
    ensures { marks.new.items ≡ with_tapes tapes.now marks.old.items }
{
    for tape in tapes {
        put_calls(marks, tape.seat, &tape.calls);
    }
}

/// The one history that these tapes make together: the mark at each place is the call with that place,
/// and its seat is the seat of that call's tape.
///
/// The places of all calls have to be 0 to n - 1, each once, where n is the number of calls. The tapes are
/// dropped, also on `NoMemory`. Linear in the number of calls: each is put at its place, in memory that is
/// taken once.
pub fn merge(alloc: Global, tapes: Vec<Tape>) -> Result<Vec<Mark>, NoMemory>
    requires { IsComplete tapes.items }
    ensures { IfOk result (λ history. IsByPlace tapes.items history.items) }
{
    let count = count_calls(&tapes)?;
    let mut marks = vec![in alloc; NO_CALL; count]?;
    put_tapes(&mut marks, &tapes);
    Ok(marks)
}
