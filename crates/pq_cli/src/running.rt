//! The top call.

ghost use Rattle.std.specs.Prelude.{◌≡◌, Some, IfOk, MatchResult};
ghost use Rattle.cli_words.specs.declared.command.Command.{Command};
ghost use Rattle.pq_cli.specs.Answers.{status_in, text_in, IsWritable};
ghost use Rattle.cli_words.specs.CommandWords.{command_of, still_command_of, texts};
ghost use Rattle.pq_cli.specs.Commands.{duty_of};
ghost use Rattle.pq_cli.specs.Runs.{IsRun, IsRunAndReported, IsAnsweredWhole, IsComplete, IsWritten};
ghost use Rattle.pq_cli.specs.Runs.{TellsFaults};
ghost use Rattle.pq_cli.specs.Statuses.{IsAnswered};
ghost use Rattle.pq_cli.specs.Refusals.{status_of};
ghost use Rattle.pq_cli.specs.Streams.{change, IsSame};

use crate::answer::Answer;
use crate::commands::{answer, answer_still};
use crate::refusal::Refusal;
use crate::reporting::report;
use crate::status::Status;
use cli_words::{read_still_words, read_words};
use pq_api::Gate;
use pq_io::{Failed, Sink, Source, put_all};
use pq_tape::{History, write_history};
use std::alloc::Global;
use std::sync::Wait;
use std::thread::Threads;

/// Runs the command that the words say, without threads and without waiting. Words that say a command which needs
/// threads are bad words here.
///
/// The words do not hold the program's name. At `Ok` and `Illegal` nothing is written to `faults`, and at each other
/// status its line.
pub fn run_still<I: Source, O: Sink, E: Sink>(
    alloc: Global,
    words: &[String],
    input: &mut I,
    output: &mut O,
    faults: &mut E,
) -> Status
    // The words came to a status, with these marks in the input and the output, and it was reported.
    ensures ran { IsRunAndReported (still_command_of (texts words.now)) result
        (change I.left I.faults input.old input.new)
        (change O.written O.faults output.old output.new)
        (change E.written E.faults faults.old faults.new) }
    // So at Ok and Illegal the output has gained the command's answer to all that the input held.
    ensures answered { IsAnswered result → IsAnsweredWhole (still_command_of (texts words.now)) result
        (change I.left I.faults input.old input.new)
        (change O.written O.faults output.old output.new) }
    // A fault of reading shows in the status, and so does one of writing.
    ensures told { TellsFaults result
        (change I.left I.faults input.old input.new)
        (change O.written O.faults output.old output.new)
        (change E.written E.faults faults.old faults.new) }
    // And where there was all that the command needs, there is an answer, or no memory.
    ensures complete { (c : Command) → still_command_of (texts words.now) ≡ Some c → IsComplete (duty_of c) result
        (change I.left I.faults input.old input.new)
        (change O.written O.faults output.old output.new)
        (change E.written E.faults faults.old faults.new) }
{
    report(run_still_words(alloc, words, input, output), faults)
}

// Runs the command that the words say, where it needs no threads, and reports nothing.
#[tactic(auto, using(crate::proofs::Unread::refused_run))]
fn run_still_words<I: Source, O: Sink>(
    alloc: Global,
    words: &[String],
    input: &mut I,
    output: &mut O,
) -> Status
    ensures { IsRun (still_command_of (texts words.now)) result
        (change I.left I.faults input.old input.new)
        (change O.written O.faults output.old output.new) }
{
    match read_still_words(alloc, words) {
        Ok(command) => write_made(answer_still(alloc, command, input), output),
        Err(refusal) => Status::from(refusal),
    }
}

/// Runs the command that the words say, with this gate at the points of the queue's calls.
///
/// As `run_still` does, which serves the commands that need no threads. `trace` runs each lane of its script in a
/// thread of its own, `solve` and `prove` each of their workers, and `drill` both; they wait for all of them. The
/// workers tell the gate each node that they have taken.
pub fn run<Rt: Threads + Wait + Sync, I: Source, O: Sink, E: Sink, G: Gate>(
    rt: &Rt,
    alloc: Global,
    words: &[String],
    input: &mut I,
    output: &mut O,
    faults: &mut E,
    gate: &G,
) -> Status
    // The words came to a status, with these marks in the input and the output, and it was reported.
    ensures ran { IsRunAndReported (command_of (texts words.now)) result
        (change I.left I.faults input.old input.new)
        (change O.written O.faults output.old output.new)
        (change E.written E.faults faults.old faults.new) }
    // So at Ok and Illegal the output has gained the command's answer to all that the input held.
    ensures answered { IsAnswered result → IsAnsweredWhole (command_of (texts words.now)) result
        (change I.left I.faults input.old input.new)
        (change O.written O.faults output.old output.new) }
    // A fault of reading shows in the status, and so does one of writing.
    ensures told { TellsFaults result
        (change I.left I.faults input.old input.new)
        (change O.written O.faults output.old output.new)
        (change E.written E.faults faults.old faults.new) }
    // And where there was all that the command needs, there is an answer, or no memory.
    ensures complete { (c : Command) → command_of (texts words.now) ≡ Some c → IsComplete (duty_of c) result
        (change I.left I.faults input.old input.new)
        (change O.written O.faults output.old output.new)
        (change E.written E.faults faults.old faults.new) }
{
    report(run_words(rt, alloc, words, input, output, gate), faults)
}

// Runs the command that the words say, and reports nothing.
#[tactic(auto, using(crate::proofs::Unread::refused_run))]
fn run_words<Rt: Threads + Wait + Sync, I: Source, O: Sink, G: Gate>(
    rt: &Rt,
    alloc: Global,
    words: &[String],
    input: &mut I,
    output: &mut O,
    gate: &G,
) -> Status
    ensures { IsRun (command_of (texts words.now)) result
        (change I.left I.faults input.old input.new)
        (change O.written O.faults output.old output.new) }
{
    match read_words(alloc, words) {
        Ok(command) => write_made(answer(rt, alloc, command, input, gate), output),
        Err(refusal) => Status::from(refusal),
    }
}

// Writes what a command came to, and gives the status that it ends with.
fn write_made<O: Sink>(made: Result<Answer, Refusal>, output: &mut O) -> Status
    requires { IfOk made IsWritable }
    ensures { MatchResult made
        (λ a. IsWritten (text_in a) (status_in a) result (change O.written O.faults output.old output.new))
        (λ r. (result ≡ status_of r) × IsSame (change O.written O.faults output.old output.new)) }
{
    match made {
        Ok(answer) => write_answer(output, &answer),
        Err(refusal) => Status::from(refusal),
    }
}

// Writes the answer, and gives the status that comes with it where all of it was written.
fn write_answer<O: Sink>(output: &mut O, answer: &Answer) -> Status
    requires { IsWritable answer.now }
    ensures { IsWritten (text_in answer.now) (status_in answer.now) result
        (change O.written O.faults output.old output.new) }
{
    let (written, status) = match answer {
        Answer::Text { status, text } => (put_all(output, text), *status),
        Answer::Trace(history) => {
            let History { head, marks, left } = history;
            (write_history(*head, marks, *left, output), Status::Ok)
        }
    };
    match written {
        Ok(()) => status,
        Err(Failed) => Status::WriteFault,
    }
}
