//! Calls of one seat with the answers that are wanted of them, and a tape that keeps what was made.
ghost use Rattle.std.specs.Prelude.{◌≡◌, ◌+◌, ◌-◌, ◌<◌, ◌≤◌, true, [], ◌∷◌, List, length, IfOk};
ghost use Rattle.pq_model.specs.declared.passes.Call.{Call};
ghost use Rattle.pq_api.specs.Limits.{call_limit};
ghost use Rattle.pq_checks.specs.Checks.{asked, IsWanted, AreWanted, HasMade, IsTaped};

use crate::calls::{is_same, make};
use crate::held::HeldFault;
use pq_api::BoundedQueue;
use pq_io::NoMemory;
use pq_model::{Act, Call, Reply};
use pq_tape::Tape;
use std::sync::Wait;

/// A call, and the place and the reply that it is to have. Where one is left out, any will do.
#[derive(Clone, Copy, Debug, PartialEq, Eq)]
pub struct Wanted {
    pub act: Act,
    pub place: Option<u32>,
    pub reply: Option<Reply>,
}

// Whether a call has the answer that is wanted.
fn is_wanted(made: Call, wanted: Wanted) -> bool
    requires { made.act ≡ asked wanted.act }
    ensures { result ≡ true → IsWanted wanted made }
{
    let placed = match wanted.place {
        Some(place) => place == made.place,
        None => true,
    };
    let replied = match wanted.reply {
        Some(reply) => is_same(made.reply, reply),
        None => true,
    };
    placed && replied
}

/// Makes a call, and puts it on the tape.
pub(crate) fn make_taped<R: Wait + Sync, Q: BoundedQueue>(
    rt: &R,
    queue: &Q,
    pass: &mut Q::Pass,
    tape: &mut Tape,
    act: Act,
) -> Result<Call, NoMemory>
    requires own { Q.belongs queue.now pass.old }
    requires taped { IsTaped (Q.known pass.old) tape.old.lane }
    requires few { length (Q.known pass.old).calls < call_limit - 1 }
    ensures own { Q.belongs queue.now pass.new }
    ensures taped { IfOk result (λ _. IsTaped (Q.known pass.new) tape.new.lane) }
    ensures made { IfOk result (λ c. HasMade (Q.known pass.old) (c ∷ []) (Q.known pass.new)) }
    ensures act { IfOk result (λ c. c.act ≡ asked act) }
{
    let made = make(rt, queue, pass, act);
    tape.add(made.place, made.act, made.reply)?;
    Ok(made)
}

/// The same, where an answer is wanted.
pub(crate) fn make_wanted<R: Wait + Sync, Q: BoundedQueue>(
    rt: &R,
    queue: &Q,
    pass: &mut Q::Pass,
    tape: &mut Tape,
    wanted: Wanted,
) -> Result<(), HeldFault>
    requires own { Q.belongs queue.now pass.old }
    requires taped { IsTaped (Q.known pass.old) tape.old.lane }
    requires few { length (Q.known pass.old).calls < call_limit - 1 }
    ensures own { Q.belongs queue.now pass.new }
    ensures taped { IfOk result (λ _. IsTaped (Q.known pass.new) tape.new.lane) }
    ensures made { IfOk result (λ _. (c : Call) × IsWanted wanted c
        × HasMade (Q.known pass.old) (c ∷ []) (Q.known pass.new)) }
{
    let made = make_taped(rt, queue, pass, tape, wanted.act)?;
    as_wanted(made, wanted)
}

/// A fault, where a call has not the answer that is wanted.
pub(crate) fn as_wanted(made: Call, wanted: Wanted) -> Result<(), HeldFault>
    requires { made.act ≡ asked wanted.act }
    ensures { IfOk result (λ _. IsWanted wanted made) }
{
    if is_wanted(made, wanted) {
        Ok(())
    } else {
        Err(HeldFault::Answer(made))
    }
}

/// Makes these calls, up to the first that is answered otherwise.
pub(crate) fn make_each<R: Wait + Sync, Q: BoundedQueue>(
    rt: &R,
    queue: &Q,
    pass: &mut Q::Pass,
    tape: &mut Tape,
    calls: &[Wanted],
) -> Result<(), HeldFault>
    requires own { Q.belongs queue.now pass.old }
    requires taped { IsTaped (Q.known pass.old) tape.old.lane }
    requires few { length (Q.known pass.old).calls + length calls.now < call_limit - 1 }
    ensures own { Q.belongs queue.now pass.new }
    ensures taped { IfOk result (λ _. IsTaped (Q.known pass.new) tape.new.lane) }
    ensures made { IfOk result (λ _. (made : List Call) × AreWanted calls.now made
        × HasMade (Q.known pass.old) made (Q.known pass.new)) }
{
    for wanted in calls {
        make_wanted(rt, queue, pass, tape, *wanted)?;
    }
    Ok(())
}
