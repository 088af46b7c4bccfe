//! All words: the name of a command, and what stands behind it.

ghost use Rattle.std.specs.Prelude.{◌≡◌, IfOk, IfSome};
ghost use Rattle.clap.specs.Words.{subcommand_rows_of};
ghost use Rattle.cli_words.specs.Parser.{answer_in, command_found, has_end, refusal_of};
ghost use Rattle.cli_words.specs.CommandWords.{command_of, still_command_of, texts, IsReadAs};
ghost use Rattle.cli_words.specs.Limits.{HasLimits};
ghost use Rattle.cli_words.specs.Queues.{still_alone, IsStill};

use crate::command::Command;
use crate::command_line::parser;
use crate::commands::command_from;
use crate::found::settings_in;
use clap::error::ErrorKind;
use clap::{ArgMatches, Error};
use std::alloc::{AllocError, Global};

/// Why the words are read as no command.
#[derive(Clone, Copy, Debug, PartialEq, Eq)]
pub enum WordsRefusal {
    /// No command reads them.
    BadWords,
    /// There was no memory to read them.
    NoMemory,
}

impl From<AllocError> for WordsRefusal {
    ghost use Rattle.cli_words.specs.declared.reading.WordsRefusal.TheVariants as refusals;

    ghost from_gives = { λ _ e. e ≡ refusals.NoMemory };

    fn from(_error: AllocError) -> WordsRefusal {
        WordsRefusal::NoMemory
    }
}

/// The command that the words say, or `BadWords` where no command reads them.
///
/// The first word is the command. Behind it the problem and the options stand in any order, each at most once; an
/// option is two words `--name value` or one word `--name=value`. Linear in the words.
#[tactic(auto, using(crate::proofs::ClapReads::end_is_unread))]
pub fn read_words(alloc: Global, words: &[String]) -> Result<Command, WordsRefusal>
    ensures exact { IsReadAs (command_of (texts words.now)) result }
    ensures limits { IfOk result HasLimits }
{
    // Behind this word clap takes every other as it stands.
    if has_end(words) {
        return Err(WordsRefusal::BadWords);
    }
    answer_in(parser(alloc)?.try_get_matches_from(words))
}

// What is answered to what clap answers.
fn answer_in(parsed: Result<ArgMatches, Error>) -> Result<Command, WordsRefusal>
    ensures exact { result ≡ answer_in parsed.entry }
    ensures limits { IfOk result HasLimits }
{
    match parsed {
        Ok(matches) => command_in(&matches).ok_or(WordsRefusal::BadWords),
        Err(error) => Err(refusal_of(error.kind())),
    }
}

// One of the words is the end of the options.
fn has_end(words: &[String]) -> bool
    ensures { result ≡ has_end (texts words.now) }
{
    words.iter().any(|word| word.as_str() == "--")
}

// Whatever clap finds amiss is bad words, but that it has no memory.
fn refusal_of(kind: ErrorKind) -> WordsRefusal
    ensures { result ≡ refusal_of kind }
{
    match kind {
        ErrorKind::OutOfMemory => WordsRefusal::NoMemory,
        _ => WordsRefusal::BadWords,
    }
}

// The command that clap found, where its settings are those of one.
#[tactic(auto, using(crate::proofs::ClapReads::found_is, crate::proofs::ClapReads::none_found))]
fn command_in(matches: &ArgMatches) -> Option<Command>
    ensures exact { result ≡ command_found (subcommand_rows_of matches.now) }
    ensures limits { IfSome result HasLimits }
{
    let (name, behind) = matches.subcommand()?;
    command_from(name.as_bytes(), settings_in(behind)?)
}

/// The same of the commands that need no threads: words that say another are bad words.
pub fn read_still_words(alloc: Global, words: &[String]) -> Result<Command, WordsRefusal>
    ensures exact { IsReadAs (still_command_of (texts words.now)) result }
    ensures limits { IfOk result HasLimits }
    ensures still { IfOk result IsStill }
{
    still_alone(read_words(alloc, words)?).ok_or(WordsRefusal::BadWords)
}

// The command, where it needs no threads.
fn still_alone(command: Command) -> Option<Command>
    ensures exact { result ≡ still_alone command }
    ensures still { IfSome result IsStill }
    ensures same { IfSome result (λ c. c ≡ command) }
{
    if command.needs_threads() {
        None
    } else {
        Some(command)
    }
}
