//! What stands between the real streams and the top call.
ghost use Rattle.std.specs.Prelude.{◌≡◌, ◌⊎◌, [], drop, IfOk, OnErr};
ghost use Rattle.std.specs.Process.{exit_status};
ghost use Rattle.std.specs.Vec.Iter.{into_iter_items};
ghost use Rattle.pq_cli.specs.Statuses.{code_of};
ghost use Rattle.pq_cli.specs.Streams.{change};
ghost use Rattle.pq_run.specs.Program.{words_given, IsEnded, IsEndedWithoutWords};

use crate::streams::{Answers, Faults};
use pq_api::Open;
use pq_cli::{Status, report};
use pq_io::Source;
use std::alloc::{AllocError, Global};
use std::env::Args;
use std::io;
use std::io::ErrorKind;
use std::process::ExitCode;
use std::sync::Wait;
use std::thread::Threads;

/// Runs the command that the given words say, and gives what the program ends with.
///
/// Words that are no text are those of no command. Where there is no memory for the words, that is reported as the
/// top call reports it.
pub(crate) fn run<Rt: Threads + Wait + Sync, I: Source, O: Answers, E: Faults>(
    rt: &Rt,
    alloc: Global,
    given: io::Result<Args>,
    input: &mut I,
    output: &mut O,
    faults: &mut E,
) -> ExitCode
    ensures { IsEnded (words_given given) result
        (change I.left I.faults input.old input.new)
        (change O.written O.faults output.old output.new)
        (change E.written E.faults faults.old faults.new)
        ⊎ IsEndedWithoutWords result
        (change I.left I.faults input.old input.new)
        (change O.written O.faults output.old output.new)
        (change E.written E.faults faults.old faults.new) }
{
    match words_of(alloc, given) {
        Ok(all) => {
            let words = behind_the_name(&all);
            exit_code(pq_cli::run(rt, alloc, words, input, output, faults, &Open))
        }
        Err(AllocError) => exit_code(report(Status::NoMemory, faults)),
    }
}

// All the words that the program was given, of which the first is its name; none where they are no text.
fn words_of(alloc: Global, given: io::Result<Args>) -> Result<Vec<String>, AllocError>
    ensures texts { IfOk given (λ args. IfOk result (λ all. all.items ≡ into_iter_items args)) }
    ensures no_text { OnErr given (IfOk result (λ all. all.items ≡ [])) }
{
    match given {
        Ok(args) => all_words(alloc, args),
        Err(error) if error.kind() == ErrorKind::OutOfMemory => Err(AllocError),
        Err(_) => Ok(Vec::new(alloc)),
    }
}

// All the words.
fn all_words(alloc: Global, given: Args) -> Result<Vec<String>, AllocError>
    ensures { IfOk result (λ all. all.items ≡ into_iter_items given) }
{
    let mut rest = given;
    let mut words = Vec::new(alloc);
    while let Some(word) = rest.next() {
        words.push(word)?;
    }
    Ok(words)
}

// The words behind the first, which is the program's name.
fn behind_the_name(all: &[String]) -> &[String]
    ensures { result.now ≡ drop 1 all.now }
{
    match all.split_first() {
        Some((_name, words)) => words,
        None => all,
    }
}

// What the program ends with.
fn exit_code(status: Status) -> ExitCode
    ensures { exit_status result ≡ code_of status }
{
    ExitCode::from(status.code())
}
