//! What clap found, read as settings.

ghost use Rattle.std.specs.Prelude.{◌≡◌, codes, option_map};
ghost use Rattle.clap.specs.Words.{first_of, found_of, rows_of};
ghost use Rattle.cli_words.specs.Queues.{which_of};
ghost use Rattle.cli_words.specs.Words.{kind_of, branching_of, number_in};
ghost use Rattle.cli_words.specs.Parser.{read_of, settings_in};

use crate::command::{Branching, Kind};
use crate::queues::{Which, which_of};
use crate::settings::Settings;
use crate::values::{branching_of, kind_of, number_in};
use clap::ArgMatches;

/// The settings that were found, where each text reads as one.
pub fn settings_in(matches: &ArgMatches) -> Option<Settings>
    ensures { result ≡ settings_in (rows_of (found_of matches.now)) }
{
    Some(Settings {
        kind: kind_in(matches)?,
        branching: branching_in(matches)?,
        queue: queue_in(matches)?,
        workers: number_at(matches, "workers")?,
        nodes: number_at(matches, "nodes")?,
        capacity: number_at(matches, "capacity")?,
        seed: number_at(matches, "seed")?,
        size: number_at(matches, "size")?,
    })
}

// What was said for this id, if anything.
fn text_at<'a>(matches: &ArgMatches<'a>, id: &str) -> Option<&'a str>
    ensures { option_map (λ t. t.now) result ≡ first_of id.now (rows_of (found_of matches.now)) }
{
    matches.get_str(id)
}

// The problem, if one was found.
fn kind_in(matches: &ArgMatches) -> Option<Option<Kind>>
    ensures { result ≡ read_of kind_of (first_of (codes "kind") (rows_of (found_of matches.now))) }
{
    match text_at(matches, "kind") {
        None => Some(None),
        Some(text) => Some(Some(kind_of(text.as_bytes())?)),
    }
}

// The branching, if one was found.
fn branching_in(matches: &ArgMatches) -> Option<Option<Branching>>
    ensures { result ≡ read_of branching_of (first_of (codes "branching") (rows_of (found_of matches.now))) }
{
    match text_at(matches, "branching") {
        None => Some(None),
        Some(text) => Some(Some(branching_of(text.as_bytes())?)),
    }
}

// The queue, if one was found.
fn queue_in(matches: &ArgMatches) -> Option<Option<Which>>
    ensures { result ≡ read_of which_of (first_of (codes "queue") (rows_of (found_of matches.now))) }
{
    match text_at(matches, "queue") {
        None => Some(None),
        Some(text) => Some(Some(which_of(text.as_bytes())?)),
    }
}

// A number, if one was found.
fn number_at(matches: &ArgMatches, id: &str) -> Option<Option<u64>>
    ensures { result ≡ read_of number_in (first_of id.now (rows_of (found_of matches.now))) }
{
    match text_at(matches, id) {
        None => Some(None),
        Some(text) => Some(Some(number_in(text.as_bytes())?)),
    }
}
