//! A call of a queue, made for a check, and the queue that a check leaves.
ghost use Rattle.std.specs.Prelude.{◌≡◌, ◌-◌, ◌<◌, true, List, [], ◌∷◌, length, IfOk};
ghost use Rattle.pq_model.specs.declared.marks.Mark.{Mark};
ghost use Rattle.pq_model.specs.History.{IsLegal, left};
ghost use Rattle.pq_model.specs.Passes.{IsActual};
ghost use Rattle.pq_api.specs.Limits.{call_limit};
ghost use Rattle.inst_text.specs.Script.{IsCommand};
ghost use Rattle.pq_checks.specs.Checks.{HasMade, asked};

use pq_api::{BoundedQueue, CloseWhy, SharedQueue};
use pq_io::NoMemory;
use pq_lanes::call;
use pq_model::{Act, Call, Reply};
use pq_words::{Entry, KEY_LIMIT};
use std::alloc::Global;
use std::sync::Wait;

/// What a check found amiss.
#[derive(Clone, Copy, Debug, PartialEq, Eq)]
pub enum CheckFault {
    /// There was no memory for the queue or the check.
    NoMemory,
    /// The call of this number, from 0 on, was answered otherwise.
    Reply { call: u32 },
    /// The call of this number has not this number as its place.
    Place { call: u32 },
    /// A look did not find as many calls as were made.
    Look,
    /// The closed queue had another length than the number of calls.
    Length,
    /// Other entries were left.
    Left,
    /// The queue was not closed, though all its passes were joined.
    NotClosed,
}

impl From<NoMemory> for CheckFault {
    ghost from_gives = { λ _ _. Unit {0} };

    fn from(_refusal: NoMemory) -> CheckFault {
        CheckFault::NoMemory
    }
}

/// A queue on which a check has made its calls, and the pass that keeps them.
#[derive(Drop)]
pub struct Made<Q, P> {
    pub queue: Q,
    pub pass: P,
}

// What a queue is asked.
fn capped(act: Act) -> Act
    ensures asked { result ≡ asked act }
    ensures command { IsCommand result }
{
    match act {
        Act::RemoveBelow(limit) => Act::RemoveBelow(limit.min(KEY_LIMIT)),
        Act::Insert(_) | Act::Remove => act,
    }
}

/// Makes a call, and gives it with its place and its reply. A limit above that of a key is taken as that, which means
/// the same.
pub(crate) fn make<R: Wait + Sync, Q: BoundedQueue>(
    rt: &R,
    queue: &Q,
    pass: &mut Q::Pass,
    act: Act,
) -> Call
    requires own { Q.belongs queue.now pass.old }
    requires few { length (Q.known pass.old).calls < call_limit - 1 }
    ensures own { Q.belongs queue.now pass.new }
    ensures made { HasMade (Q.known pass.old) (result ∷ []) (Q.known pass.new) }
    ensures act { result.act ≡ asked act }
{
    let act = capped(act);
    let answer = call(rt, queue, pass, act);
    Call {
        place: answer.place,
        act,
        reply: answer.reply,
    }
}

/// Whether two replies are the same.
pub(crate) fn is_same(a: Reply, b: Reply) -> bool
    ensures { result ≡ true → a ≡ b }
{
    match (a, b) {
        (Reply::Done, Reply::Done) => true,
        (Reply::Got(e), Reply::Got(f)) => e.raw() == f.raw(),
        (Reply::Empty, Reply::Empty) => true,
        (Reply::Full, Reply::Full) => true,
        (Reply::Above, Reply::Above) => true,
        _ => false,
    }
}

// Whether two lists have the same entries in the same order.
fn are_same(xs: &[Entry], ys: &[Entry]) -> bool
    ensures { result ≡ true → xs.now ≡ ys.now }
{
    if xs.len() != ys.len() {
        return false;
    }
    for (place, x) in xs.iter().enumerate() {
        if x.raw() != ys[place].raw() {
            return false;
        }
    }
    true
}

// What it means for a check that a queue was not closed.
fn not_closed(why: CloseWhy) -> CheckFault {
    match why {
        CloseWhy::NoMemory => CheckFault::NoMemory,
        CloseWhy::PassesOut { .. } => CheckFault::NotClosed,
    }
}

/// Closes the queue of a check, all of whose passes are joined. Its history is to have this many calls, and these
/// entries, in rising order, are to be left.
pub fn leaves<Q: SharedQueue>(
    alloc: Global,
    made: Made<Q, Q::Pass>,
    calls: u32,
    entries: &[Entry],
) -> Result<(), CheckFault>
    requires own { Q.belongs made.queue made.pass }
    ensures left { IfOk result (λ _. (history : List Mark) × IsActual (Q.known made.pass) history
        × IsLegal (Q.seats_of made.queue) (Q.capacity_of made.queue) history
        × (length history ≡ calls) × (left history ≡ entries.now)) }
{
    let closed = match made.queue.close(alloc, made.pass) {
        Ok(closed) => closed,
        Err(refusal) => return Err(not_closed(refusal.why)),
    };
    if closed.length != calls {
        return Err(CheckFault::Length);
    }
    if !are_same(&closed.left, entries) {
        return Err(CheckFault::Left);
    }
    Ok(())
}
