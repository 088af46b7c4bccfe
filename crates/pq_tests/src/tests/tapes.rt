//! Tapes, and the history that two make.
ghost use Rattle.std.specs.Prelude.{◌≡◌, ◌∷◌, [], IfOk};
ghost use Rattle.pq_model.specs.declared.marks.Act.TheVariants.{Remove};
ghost use Rattle.pq_model.specs.declared.marks.Reply.TheVariants.{Empty, Full};
ghost use Rattle.pq_model.specs.Passes.{call, lane};

use pq_io::NoMemory;
use pq_model::{Act, Mark, Reply};
use pq_tape::*;
use std::alloc::Global;
use std::test::Fail;

// A tape with room for one call that takes two.
fn tape_of(alloc: Global, seat: u32, first: u32, second: u32) -> Result<Tape, NoMemory>
    ensures { IfOk result (λ t. t.lane ≡ lane seat (call first Remove Empty ∷ call second Remove Full ∷ [])) }
{
    let mut tape = Tape::new(alloc, seat, 1)?;
    tape.add(first, Act::Remove, Reply::Empty)?;
    tape.add(second, Act::Remove, Reply::Full)?;
    Ok(tape)
}

fn merged(alloc: Global) -> Result<Vec<Mark>, NoMemory> {
    let one = tape_of(alloc, 1, 0, 3)?;
    let two = tape_of(alloc, 2, 2, 1)?;
    merge(alloc, vec![in alloc; one, two]?)
}

#[test]
fn tapes_are_merged_by_place(rt: HostRuntime) -> Result<(), Fail> {
    let history = merged(rt.alloc()).ok().ok_or("memory")?;
    let rows = [
        (1, Reply::Empty),
        (2, Reply::Full),
        (2, Reply::Empty),
        (1, Reply::Full),
    ];
    assert_eq!(rt; history.len(), 4);
    for (mark, (seat, reply)) in history.iter().zip(rows) {
        assert!(rt; mark.seat == seat && mark.reply == reply);
    }
    Ok(())
}

#[test]
fn calls_on_a_tape(rt: HostRuntime) -> Result<(), Fail> {
    let empty = Tape::new(rt.alloc(), 1, 0).ok().ok_or("memory")?;
    assert!(rt; empty.is_empty());
    let tape = tape_of(rt.alloc(), 1, 0, 1).ok().ok_or("memory")?;
    assert_eq!(rt; tape.len(), 2);
    assert!(rt; !tape.is_empty());
    Ok(())
}
