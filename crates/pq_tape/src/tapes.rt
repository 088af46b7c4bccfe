//! The calls of a seat on a tape.
ghost use Rattle.std.specs.Prelude.{◌≡◌, ◌==◌, ◌<◌, ◌++◌, ◌∷◌, [], length, IsOk, IfOk, OnOk, OnErr};
ghost use Rattle.pq_model.specs.Passes.{call, lane};

mod merging;

pub use merging::merge;
use pq_io::NoMemory;
use pq_model::{Act, Call, Reply};
use std::alloc::Global;
use std::marker::Model;

/// The calls that were made under the number of one seat, in the order in which they were added, each
/// with its place in the history, its act and its reply. Contracts see the number with the list of the
/// calls, and the room: how many calls the tape is sure to hold.
#[derive(Drop)]
pub struct Tape {
    seat: u32,
    room: u32,
    calls: Vec<Call>,
}

impl Model for Tape {
    ghost use Rattle.std.specs.Prelude.{◌<◌, ◌≤◌, ◌^◌, vec_len, vec_capacity};
    ghost use Rattle.pq_model.specs.Passes.{lane};
    ghost use Rattle.pq_tape.specs.Tapes.{Taped};

    ghost Value = { Taped };

    ghost view = { λ t. record { lane = lane t.seat t.calls.items; room = t.room } };

    ghost invariant = { λ t. (t.room ≤ vec_capacity t.calls) × (vec_len t.calls < 2 ^ 32) };
}

impl Tape {
    /// An empty tape of this seat, with memory for `room` calls.
    pub fn new(alloc: Global, seat: u32, room: u32) -> Result<Tape, NoMemory>
        ensures empty { IfOk result (λ t. t.lane ≡ lane seat []) }
        ensures room { IfOk result (λ t. t.room ≡ room) }
    {
        Ok(Tape {
            seat,
            room,
            calls: Vec::with_capacity(alloc, room as usize)?,
        })
    }

    /// Appends a call. While there are fewer calls than the room, it takes no memory and is not refused.
    ///
    /// On `NoMemory` the tape is as it was. A tape of 4,294,967,295 calls takes no more, and says so too.
    pub fn add(&mut self, place: u32, act: Act, reply: Reply) -> Result<(), NoMemory>
        ensures added { let calls = self.old.lane.calls ++ call place act reply ∷ [] in
            OnOk result (self.new.lane ≡ lane self.old.lane.number calls) }
        ensures sure { length self.old.lane.calls < self.old.room → IsOk result }
        ensures room { self.new.room ≡ self.old.room }
        ensures kept { OnErr result (self.new ≡ self.old) }
    {
        if self.calls.len() >= u32::MAX as usize {
            return Err(NoMemory);
        }
        self.calls.push(Call { place, act, reply })?;
        Ok(())
    }

    /// The number of calls.
    pub fn len(&self) -> u32
        ensures { result ≡ length self.now.lane.calls }
    {
        self.calls.len() as u32
    }

    /// Whether there is no call.
    pub fn is_empty(&self) -> bool
        ensures { result ≡ (length self.now.lane.calls == 0) }
    {
        self.calls.is_empty()
    }
}
