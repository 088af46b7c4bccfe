//! Calls drawn by a seed, beside a sorted list that is stepped by hand.
ghost use Rattle.std.specs.Prelude.{◌≡◌, ◌<◌, ◌≤◌, length, IfOk};
ghost use Rattle.pq_checks.specs.Limits.{check_limit};
ghost use Rattle.pq_checks.specs.Checks.{IsAlone};

use crate::answers::is_answered;
use crate::calls::{CheckFault, Made, make};
use pq_api::BoundedQueue;
use pq_model::{Act, Reply};
use pq_words::Entry;
use std::alloc::{AllocError, Global};
use std::sync::Wait;

// The number behind this one in a sequence that looks random (G. Marsaglia, Xorshift RNGs, 2003).
fn next(x: u64) -> u64 {
    let a = x ^ (x << 13);
    let b = a ^ (a >> 7);
    b ^ (b << 17)
}

// An act drawn by a number: half are inserts, and few keys and ids are drawn, so that equal ones come often.
fn drawn(x: u64) -> Act {
    let key = (x / 4 % 16) as u32;
    match x % 4 {
        0 | 1 => Act::Insert(Entry {
            key,
            id: (x / 64 % 4) as u32,
        }),
        2 => Act::Remove,
        _ => Act::RemoveBelow(key),
    }
}

// What a sorted list with at most this many entries answers.
fn answer_of_list(held: &mut Vec<Entry>, capacity: u32, act: Act) -> Result<Reply, AllocError> {
    match act {
        Act::Insert(_) if held.len() >= capacity as usize => Ok(Reply::Full),
        Act::Insert(e) => {
            let at = held.partition_point(|x| *x < e);
            held.insert(at, e)?;
            Ok(Reply::Done)
        }
        Act::Remove if held.is_empty() => Ok(Reply::Empty),
        Act::Remove => Ok(Reply::Got(held.remove(0))),
        Act::RemoveBelow(_) if held.is_empty() => Ok(Reply::Empty),
        Act::RemoveBelow(limit) if held[0].key >= limit => Ok(Reply::Above),
        Act::RemoveBelow(_) => Ok(Reply::Got(held.remove(0))),
    }
}

/// Makes this many calls, drawn by the seed, on a new queue of one seat and this capacity. Each is to be answered as
/// a sorted list of at most `listed` entries answers, which is as a queue of that capacity does. Gives the queue, whose
/// pass has made that many calls, and what the list holds at the end.
pub fn against_a_list<R: Wait + Sync, Q: BoundedQueue>(
    rt: &R,
    alloc: Global,
    gate: Q::Gate,
    capacity: u32,
    listed: u32,
    seed: u64,
    calls: u32,
) -> Result<(Made<Q, Q::Pass>, Vec<Entry>), CheckFault>
    requires room { (1 ≤ capacity) × (capacity ≤ Q.CAPACITY) }
    requires few { calls < check_limit }
    ensures own { IfOk result (λ r. Q.belongs r.0.queue r.0.pass) }
    ensures limits { IfOk result (λ r. (Q.capacity_of r.0.queue ≡ capacity) × (Q.seats_of r.0.queue ≡ 1)) }
    ensures alone { IfOk result (λ r. IsAlone (Q.known r.0.pass)) }
    ensures made { IfOk result (λ r. length (Q.known r.0.pass).calls ≡ calls) }
{
    let (queue, mut passes) = Q::open(alloc, capacity, 1, gate)?;
    let mut pass = passes.remove(0);
    let mut held = Vec::new(alloc);
    let mut x = seed;
    for number in 0..calls {
        x = next(x);
        let act = drawn(x);
        let Ok(wanted) = answer_of_list(&mut held, listed, act) else {
            return Err(CheckFault::NoMemory);
        };
        let made = make(rt, &queue, &mut pass, act);
        is_answered(number, made, wanted)?;
    }
    Ok((Made { queue, pass }, held))
}
