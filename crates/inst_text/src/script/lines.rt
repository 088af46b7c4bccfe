//! The lines of a script.

ghost use Rattle.std.specs.Prelude.{◌≡◌};
ghost use Rattle.inst_text.specs.Script.{room_for, insert_of, remove_of, remove_below_of, lane_of, script_line_of};

use crate::limits::MAX_COMMANDS;
use pq_io::{Cause, WordReader};
use pq_model::{Act, read_entry};
use pq_words::KEY_LIMIT;

/// A line of a script.
#[derive(Clone, Copy, Debug)]
pub(crate) enum ScriptLine {
    /// A command of the lane.
    Command(Act),
    /// The next lane begins.
    NextLane,
}

// Whether one more command may follow this many.
#[tactic(auto, unfolding(crate::specs::Script::room_for))]
fn has_room(commands: u32) -> Result<(), Cause>
    ensures { result ≡ room_for commands }
{
    if commands < MAX_COMMANDS {
        Ok(())
    } else {
        Err(Cause::Extra)
    }
}

// What stands behind `+`.
#[tactic(auto, unfolding(crate::specs::Script::insert_of))]
fn insert(words: &mut WordReader<'_>, commands: u32) -> Result<ScriptLine, Cause>
    ensures { result ≡ insert_of commands words.old.words }
{
    has_room(commands)?;
    let entry = read_entry(words)?;
    words.finish()?;
    Ok(ScriptLine::Command(Act::Insert(entry)))
}

// What stands behind `-`.
#[tactic(auto, unfolding(crate::specs::Script::remove_of))]
fn remove(words: &mut WordReader<'_>, commands: u32) -> Result<ScriptLine, Cause>
    ensures { result ≡ remove_of commands words.old.words }
{
    has_room(commands)?;
    words.finish()?;
    Ok(ScriptLine::Command(Act::Remove))
}

// What stands behind `<`.
#[tactic(auto, unfolding(crate::specs::Script::remove_below_of))]
fn remove_below(words: &mut WordReader<'_>, commands: u32) -> Result<ScriptLine, Cause>
    ensures { result ≡ remove_below_of commands words.old.words }
{
    has_room(commands)?;
    let limit = words.number(0, u64::from(KEY_LIMIT))?;
    words.finish()?;
    Ok(ScriptLine::Command(Act::RemoveBelow(limit as u32)))
}

// What stands behind `lane`.
#[tactic(auto, unfolding(crate::specs::Script::lane_of))]
fn next_lane(words: &mut WordReader<'_>, allowed: u32, lanes: u32) -> Result<ScriptLine, Cause>
    ensures { result ≡ lane_of allowed lanes words.old.words }
{
    if lanes >= allowed {
        return Err(Cause::Range);
    }
    words.finish()?;
    Ok(ScriptLine::NextLane)
}

/// The line behind this many commands and lanes, of which `allowed` may be.
#[tactic(auto, unfolding(crate::specs::Script::script_line_of))]
pub(crate) fn line(
    words: &mut WordReader<'_>,
    allowed: u32,
    commands: u32,
    lanes: u32,
) -> Result<ScriptLine, Cause>
    ensures { result ≡ script_line_of allowed (record { commands = commands; lanes = lanes }) words.old.words }
{
    let word = words.word()?;
    if word == b"+".as_slice() {
        insert(words, commands)
    } else if word == b"-".as_slice() {
        remove(words, commands)
    } else if word == b"<".as_slice() {
        remove_below(words, commands)
    } else if word == b"lane".as_slice() {
        next_lane(words, allowed, lanes)
    } else {
        Err(Cause::Word)
    }
}
