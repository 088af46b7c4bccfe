//! Reading a script.

ghost use Rattle.std.specs.Prelude.{◌≡◌, ◌≤◌, IfOk, Ok, List, map};
ghost use Rattle.pq_io.specs.Reading.{Gives, on_line};
ghost use Rattle.pq_model.specs.declared.marks.Act.{Act};
ghost use Rattle.inst_text.specs.Limits.{max_lanes};
ghost use Rattle.inst_text.specs.Script.{IsScriptText, script_in, script_line_of, script_of};

use crate::script::Script;
use crate::script::lines::{ScriptLine, line};
use pq_io::{BadInput, ReadRefusal, TextReader, WordReader, on_line};
use pq_model::Act;
use std::alloc::Global;
use std::mem;

// What the line says, behind this many commands and lanes.
fn line_of(
    words: &mut WordReader<'_>,
    allowed: u32,
    commands: u32,
    lanes: u32,
) -> Result<ScriptLine, BadInput>
    ensures { result ≡ on_line words.old.number
        (script_line_of allowed (record { commands = commands; lanes = lanes }) words.old.words) }
{
    let number = words.line();
    on_line(number, line(words, allowed, commands, lanes))
}

// Takes the lines up to the end of the text: the lanes, of which `allowed` may be.
fn next_lanes(
    alloc: Global,
    text: &mut TextReader<'_>,
    allowed: u32,
) -> Result<Vec<Vec<Act>>, ReadRefusal>
    requires some { 1 ≤ allowed }
    requires few { allowed ≤ max_lanes }
    ensures { Gives (λ lanes. map (λ lane. lane.items) lanes.items) result (script_in allowed text.old.lines) }
{
    let mut lanes = Vec::with_capacity(alloc, allowed as usize)?;
    let mut lane = Vec::new(alloc);
    let mut commands = 0;
    let mut begun = 1;
    while let Ok(mut words) = text.next_line() {
        match line_of(&mut words, allowed, commands, begun)? {
            ScriptLine::Command(act) => {
                lane.push(act)?;
                commands += 1;
            }
            ScriptLine::NextLane => {
                lanes.push(mem::replace(&mut lane, Vec::new(alloc)))?;
                begun += 1;
            }
        }
    }
    lanes.push(lane)?;
    Ok(lanes)
}

/// The script that the text spells: in each line one command, `+ key id`, `-` or `< limit`, or `lane`, which
/// begins the next lane.
///
/// A key is 0 to 67,108,863, an id is 0 to 4,194,303 and a limit is 0 to 67,108,864. The commands before the
/// first `lane` belong to the first lane, so a text without lines has one lane without commands. `lanes`, from
/// 1 to 16, is how many lanes are allowed: the `lane` that would begin one more is out of range, whatever
/// stands behind it on its line. There are at most 1,048,576 commands: the next one is `Extra`, once its first
/// word is one of a command.
///
/// A text that is no such script is refused with its first fault: the number of the line, and the cause. One
/// pass over the text, which is not copied; it takes memory for the commands alone.
pub fn read_script(alloc: Global, bytes: &[u8], lanes: u32) -> Result<Script, ReadRefusal>
    requires some { 1 ≤ lanes }
    requires few { lanes ≤ max_lanes }
    // Which lanes, and which fault it is.
    ensures exact { Gives (λ s. s) result (script_of lanes bytes.now) }
    // What is read is spelled so, in no more lanes than are allowed.
    ensures spelled { IfOk result (λ s. IsScriptText lanes bytes.now s) }
    // What is spelled so is read, unless memory runs out.
    ensures read { (s : List (List Act)) → IsScriptText lanes bytes.now s → Gives (λ j. j) result (Ok s) }
{
    whole_script(alloc, bytes, lanes)
}

// What `read_script` gives, read off its definition.
#[tactic(auto, unfolding(crate::specs::Script::script_of))]
fn whole_script(alloc: Global, bytes: &[u8], lanes: u32) -> Result<Script, ReadRefusal>
    requires some { 1 ≤ lanes }
    requires few { lanes ≤ max_lanes }
    ensures { Gives (λ s. s) result (script_of lanes bytes.now) }
{
    let mut text = TextReader::open(bytes)?;
    let lanes = next_lanes(alloc, &mut text, lanes)?;
    Ok(Script { lanes })
}
