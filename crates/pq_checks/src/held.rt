//! A call that is held at a point of its work, while another seat makes calls.
ghost use Rattle.std.specs.Prelude.{◌≡◌, ◌+◌, ◌-◌, ◌<◌, ◌≤◌, ◌++◌, ℕ, Option, List, [], ◌∷◌, length, IfOk};
ghost use denote.Param.Send.{IsSync};
ghost use Rattle.pq_model.specs.declared.passes.Call.{Call};
ghost use Rattle.pq_model.specs.Passes.{lane, lanes, fresh};
ghost use Rattle.pq_api.specs.Limits.{call_limit};
ghost use Rattle.pq_lanes.specs.Lanes.{on_tapes, AreNumbered};
ghost use Rattle.pq_checks.specs.Limits.{check_limit};
ghost use Rattle.pq_checks.specs.Checks.{AreWanted, AreHeld, HasMade, IsTaped};
ghost use Rattle.pq_checks.specs.Held.{one_or_none, HasHeld, HasAnswered, IsOfRow};

use crate::aside::Aside;
use crate::calls::Made;
use crate::late::LateHold;
use crate::wanted::{Wanted, as_wanted, make_each, make_taped, make_wanted};
use pq_api::{BoundedQueue, SharedQueue};
use pq_io::NoMemory;
use pq_lanes::Lanes;
use pq_model::Call;
use pq_tape::Tape;
use std::alloc::Global;
use std::sync::Wait;
use std::thread::{Threads, join};

/// What a check with a held call found amiss.
#[derive(Clone, Copy, Debug, PartialEq, Eq)]
pub enum HeldFault {
    /// There was no memory for the queue or the tapes.
    NoMemory,
    /// No call was held at the point before the turns were over.
    NotHeld,
    /// The other seat's calls had not all answered before the turns of the held one were over.
    Spent,
    /// The call that has to wait for the held one was answered before that went on.
    Early,
    /// What was done besides did not go as it is to.
    Aside,
    /// This call was answered so, at this place.
    Answer(Call),
}

impl From<NoMemory> for HeldFault {
    ghost from_gives = { λ _ _. Unit {0} };

    fn from(_refusal: NoMemory) -> HeldFault {
        HeldFault::NoMemory
    }
}

/// The calls of two seats, one of which holds.
#[derive(Clone, Copy)]
pub struct HeldCall<'a> {
    pub capacity: u32,
    /// Calls of the first seat, before any call is held.
    pub before: &'a [Wanted],
    /// Whether a call of the first seat is held, or of the second.
    pub first_is_held: bool,
    /// The call that is held, and the answer that it is to have once it has gone on.
    pub held: Wanted,
    /// It is made up to so many times, until one is held. The calls before that one may have any answer.
    pub most: u32,
    /// Calls of the other seat, which all answer while the call is held.
    pub beside: &'a [Wanted],
    /// A call of the other seat, behind those, that is not answered before the held one goes on.
    pub waits: Option<Wanted>,
}

// A seat's pass, and the tape of its calls.
#[derive(Drop)]
struct Caller<P> {
    pass: P,
    tape: Tape,
}

// Makes the call of the seat that holds, until one is held and has gone on.
fn hold<R: Wait + Sync, Q: BoundedQueue>(
    rt: &R,
    queue: &Q,
    caller: &mut Caller<Q::Pass>,
    row: &HeldCall,
    late: &LateHold,
) -> Result<(), HeldFault>
    requires own { Q.belongs queue.now caller.old.pass }
    requires taped { IsTaped (Q.known caller.old.pass) caller.old.tape.lane }
    requires few { length (Q.known caller.old.pass).calls + row.now.most < call_limit - 1 }
    ensures own { Q.belongs queue.now caller.new.pass }
    ensures taped { IfOk result (λ _. IsTaped (Q.known caller.new.pass) caller.new.tape.lane) }
    ensures held { IfOk result (λ _. HasHeld row.now (Q.known caller.old.pass) (Q.known caller.new.pass)) }
{
    for _turn in 0..row.most {
        let made = make_taped(rt, queue, &mut caller.pass, &mut caller.tape, row.held.act)?;
        if late.held() {
            return as_wanted(made, row.held);
        }
    }
    Err(HeldFault::NotHeld)
}

// What the other seat does while the call is held.
fn meanwhile<R: Wait + Sync, Q: BoundedQueue, A: Aside<Q>>(
    rt: &R,
    queue: &Q,
    caller: &mut Caller<Q::Pass>,
    calls: &[Wanted],
    aside: &A,
) -> Result<(), HeldFault>
    requires own { Q.belongs queue.now caller.old.pass }
    requires taped { IsTaped (Q.known caller.old.pass) caller.old.tape.lane }
    requires few { length (Q.known caller.old.pass).calls + length calls.now < call_limit - 1 }
    ensures own { Q.belongs queue.now caller.new.pass }
    ensures taped { IfOk result (λ _. IsTaped (Q.known caller.new.pass) caller.new.tape.lane) }
    ensures made { IfOk result (λ _. (made : List Call) × AreWanted calls.now made
        × HasMade (Q.known caller.old.pass) made (Q.known caller.new.pass)) }
{
    if !aside.goes(rt, queue, &mut caller.pass) {
        return Err(HeldFault::Aside);
    }
    make_each(rt, queue, &mut caller.pass, &mut caller.tape, calls)
}

// Makes the call that has to wait, where there is one.
fn wait<R: Wait + Sync, Q: BoundedQueue>(
    rt: &R,
    queue: &Q,
    caller: &mut Caller<Q::Pass>,
    waits: Option<Wanted>,
    late: &LateHold,
) -> Result<(), HeldFault>
    requires own { Q.belongs queue.now caller.old.pass }
    requires taped { IsTaped (Q.known caller.old.pass) caller.old.tape.lane }
    requires few { length (Q.known caller.old.pass).calls < call_limit - 1 }
    ensures own { Q.belongs queue.now caller.new.pass }
    ensures taped { IfOk result (λ _. IsTaped (Q.known caller.new.pass) caller.new.tape.lane) }
    ensures made { IfOk result (λ _. (made : List Call) × AreWanted (one_or_none waits) made
        × HasMade (Q.known caller.old.pass) made (Q.known caller.new.pass)) }
{
    let Some(wanted) = waits else {
        return Ok(());
    };
    make_wanted(rt, queue, &mut caller.pass, &mut caller.tape, wanted)?;
    if late.is_early() {
        return Err(HeldFault::Early);
    }
    Ok(())
}

// Makes the other seat's calls, and lets the held one go.
fn call_beside<R: Wait + Sync, Q: BoundedQueue, A: Aside<Q>>(
    rt: &R,
    queue: &Q,
    caller: &mut Caller<Q::Pass>,
    row: &HeldCall,
    aside: &A,
    late: &LateHold,
) -> Result<(), HeldFault>
    requires own { Q.belongs queue.now caller.old.pass }
    requires taped { IsTaped (Q.known caller.old.pass) caller.old.tape.lane }
    requires few { length (Q.known caller.old.pass).calls + length row.now.beside.now + 1 < call_limit - 1 }
    ensures own { Q.belongs queue.now caller.new.pass }
    ensures taped { IfOk result (λ _. IsTaped (Q.known caller.new.pass) caller.new.tape.lane) }
    ensures answered { IfOk result (λ _. HasAnswered row.now (Q.known caller.old.pass) (Q.known caller.new.pass)) }
{
    if !late.waits_for_a_call() {
        late.release(false);
        return Err(HeldFault::NotHeld);
    }
    match meanwhile(rt, queue, caller, row.beside, aside) {
        Ok(()) => {
            late.release(row.waits.is_some());
            wait(rt, queue, caller, row.waits, late)
        }
        Err(fault) => {
            late.release(false);
            Err(fault)
        }
    }
}

// Both seats make their calls, each in a thread.
fn make_both<R: Threads + Wait + Sync, Q: BoundedQueue, A: Aside<Q>>(
    rt: &R,
    queue: &Q,
    holder: Caller<Q::Pass>,
    other: Caller<Q::Pass>,
    row: &HeldCall,
    aside: &A,
    late: &LateHold,
) -> Result<(Caller<Q::Pass>, Caller<Q::Pass>), HeldFault>
    requires holder { Q.belongs queue.now holder.pass × IsTaped (Q.known holder.pass) holder.tape.lane ×
        (length (Q.known holder.pass).calls + row.now.most < call_limit - 1) }
    requires other { Q.belongs queue.now other.pass × IsTaped (Q.known other.pass) other.tape.lane ×
        (length (Q.known other.pass).calls + length row.now.beside.now + 1 < call_limit - 1) }
    ensures holder { IfOk result (λ r. Q.belongs queue.now r.0.pass × IsTaped (Q.known r.0.pass) r.0.tape.lane ×
        HasHeld row.now (Q.known holder.pass) (Q.known r.0.pass)) }
    ensures other { IfOk result (λ r. Q.belongs queue.now r.1.pass × IsTaped (Q.known r.1.pass) r.1.tape.lane ×
        HasAnswered row.now (Q.known other.pass) (Q.known r.1.pass)) }
{
    let (held, beside) = join(
        rt,
        || -> Result<Caller<Q::Pass>, HeldFault>
            requires { IsSync R.row × Q.belongs queue.now holder.pass × IsTaped (Q.known holder.pass) holder.tape.lane ×
                (length (Q.known holder.pass).calls + row.now.most < call_limit - 1) }
            ensures { IfOk result (λ c. Q.belongs queue.entry.now c.pass × IsTaped (Q.known c.pass) c.tape.lane ×
                HasHeld row.entry.now (Q.known holder.pass) (Q.known c.pass)) }
        {
            let mut caller = holder;
            hold(rt, queue, &mut caller, row, late)?;
            Ok(caller)
        },
        || -> Result<Caller<Q::Pass>, HeldFault>
            requires { IsSync R.row × Q.belongs queue.now other.pass × IsTaped (Q.known other.pass) other.tape.lane ×
                (length (Q.known other.pass).calls + length row.now.beside.now + 1 < call_limit - 1) }
            ensures { IfOk result (λ c. Q.belongs queue.entry.now c.pass × IsTaped (Q.known c.pass) c.tape.lane ×
                HasAnswered row.entry.now (Q.known other.pass) (Q.known c.pass)) }
        {
            let mut caller = other;
            call_beside(rt, queue, &mut caller, row, aside, late)?;
            Ok(caller)
        },
    );
    if late.spent() {
        return Err(HeldFault::Spent);
    }
    let beside = beside?;
    Ok((held?, beside))
}

// The second seat's pass is joined into the first's.
fn join_seats<Q: SharedQueue>(
    alloc: Global,
    queue: &Q,
    first: Caller<Q::Pass>,
    second: Caller<Q::Pass>,
) -> Result<Lanes<Q::Pass>, NoMemory>
    requires own { Q.belongs queue.now first.pass × Q.belongs queue.now second.pass }
    requires first { IsTaped (Q.known first.pass) first.tape.lane × ((Q.known first.pass).number ≡ 1) }
    requires second { IsTaped (Q.known second.pass) second.tape.lane × ((Q.known second.pass).number ≡ 2) }
    ensures own { IfOk result (λ r. Q.belongs queue.now r.pass) }
    ensures lanes { IfOk result (λ r. lanes (Q.known r.pass) ≡
        lane 1 (Q.known first.pass).calls ∷ lane 2 (Q.known second.pass).calls ∷ []) }
    ensures tapes { IfOk result (λ r. on_tapes r.tapes.items ≡ lanes (Q.known r.pass)) }
{
    let Caller { mut pass, tape } = first;
    let Caller {
        pass: other,
        tape: other_tape,
    } = second;
    let tapes = vec![in alloc; tape, other_tape]?;
    queue.join(&mut pass, other);
    Ok(Lanes { pass, tapes })
}

// Both seats make their calls, where the first has made those before, and their passes are joined.
fn make_joined<R: Threads + Wait + Sync, Q: BoundedQueue, A: Aside<Q>>(
    rt: &R,
    alloc: Global,
    queue: &Q,
    first: Caller<Q::Pass>,
    second: Caller<Q::Pass>,
    row: &HeldCall,
    aside: &A,
    late: &LateHold,
) -> Result<Lanes<Q::Pass>, HeldFault>
    requires own { Q.belongs queue.now first.pass × Q.belongs queue.now second.pass }
    requires first { IsTaped (Q.known first.pass) first.tape.lane × ((Q.known first.pass).number ≡ 1) }
    requires second { IsTaped (Q.known second.pass) second.tape.lane × (Q.known second.pass ≡ fresh 2) }
    requires before { AreWanted row.now.before.now (Q.known first.pass).calls }
    requires few { length (Q.known first.pass).calls + row.now.most + length row.now.beside.now + 1 < call_limit - 1 }
    ensures own { IfOk result (λ r. Q.belongs queue.now r.pass) }
    ensures made { IfOk result (λ r. IsOfRow row.now (Q.known r.pass)) }
    ensures tapes { IfOk result (λ r. on_tapes r.tapes.items ≡ lanes (Q.known r.pass)) }
    ensures numbered { IfOk result (λ r. AreNumbered 1 (lanes (Q.known r.pass)) × (length r.tapes.items ≡ 2)) }
{
    if row.first_is_held {
        let (first, second) = make_both(rt, queue, first, second, row, aside, late)?;
        Ok(join_seats(alloc, queue, first, second)?)
    } else {
        let (second, first) = make_both(rt, queue, second, first, row, aside, late)?;
        Ok(join_seats(alloc, queue, first, second)?)
    }
}

// The pass of a new queue, with an empty tape.
fn new_caller<P: Drop>(alloc: Global, pass: P, number: u32) -> Result<Caller<P>, NoMemory>
    ensures pass { IfOk result (λ c. c.pass ≡ pass) }
    ensures tape { IfOk result (λ c. c.tape.lane ≡ lane number []) }
{
    let tape = Tape::new(alloc, number, 0)?;
    Ok(Caller { pass, tape })
}

/// Makes the calls of a row on a new queue with two seats, whose gate is this `LateHold`. Each is to have the answer
/// that is wanted. While the call is held, `aside` is done first, and then the calls beside are made.
///
/// The queue comes back with the joined pass, which keeps these calls and no others, and with a tape of each seat's
/// calls. That the calls beside answered while the other was held is what the gate saw, and no clause says it.
pub fn beside_a_held_call<R: Threads + Wait + Sync, Q: BoundedQueue, A: Aside<Q>>(
    rt: &R,
    alloc: Global,
    gate: Q::Gate,
    late: &LateHold,
    row: &HeldCall,
    aside: &A,
) -> Result<(Q, Lanes<Q::Pass>), HeldFault>
    requires room { (2 ≤ row.now.capacity) × (row.now.capacity ≤ Q.CAPACITY) }
    requires seats { 2 ≤ Q.SEATS }
    requires few { length row.now.before.now + row.now.most + length row.now.beside.now < check_limit }
    ensures own { IfOk result (λ r. Q.belongs r.0 r.1.pass) }
    ensures limits { IfOk result (λ r. (Q.capacity_of r.0 ≡ row.now.capacity) × (Q.seats_of r.0 ≡ 2)) }
    ensures made { IfOk result (λ r. IsOfRow row.now (Q.known r.1.pass)) }
    ensures tapes { IfOk result (λ r. on_tapes r.1.tapes.items ≡ lanes (Q.known r.1.pass)) }
    ensures numbered { IfOk result (λ r. AreNumbered 1 (lanes (Q.known r.1.pass)) × (length r.1.tapes.items ≡ 2)) }
{
    let (queue, mut passes) = Q::open(alloc, row.capacity, 2, gate)?;
    let second = new_caller(alloc, passes.remove(1), 2)?;
    let mut first = new_caller(alloc, passes.remove(0), 1)?;
    make_each(rt, &queue, &mut first.pass, &mut first.tape, row.before)?;
    late.hold_next();
    let lanes = make_joined(rt, alloc, &queue, first, second, row, aside, late)?;
    Ok((queue, lanes))
}
