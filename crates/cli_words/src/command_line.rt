//! The command line as clap is told of it.

ghost use Rattle.std.specs.Prelude.{◌≡◌, false, IfOk};
ghost use Rattle.clap.specs.Words.{app_of, rule_of};
ghost use Rattle.clap.specs.declared.builder.command.Command.TheViews.{out-Command};
ghost use Rattle.cli_words.specs.Parser.{kind_rule, option_rule, parser_app, worded_app};

use clap::{Arg, ArgAction, Command};
use std::alloc::{AllocError, Global};

// The names of the commands.
const COMMANDS: [&str; 9] = [
    "solve", "bound", "check", "prove", "verify", "trace", "audit", "make", "drill",
];

/// The command line: each command is a subcommand, and takes a problem and options. Which of them a command has, and
/// what their texts may be, is no matter of clap's.
pub fn parser<'a>(alloc: Global) -> Result<Command<'a>, AllocError>
    ensures { IfOk result (λ c. app_of c ≡ parser_app) }
{
    let mut app = Command::new(alloc, "vogbare")
        .no_binary_name(true)
        .disable_help_flag(true)
        .disable_help_subcommand(true)
        .subcommand_required(true);
    for name in COMMANDS {
        app = app.subcommand(worded(alloc, name)?)?;
    }
    Ok(app)
}

// A command with its words.
fn worded<'a>(alloc: Global, name: &'a str) -> Result<Command<'a>, AllocError>
    ensures app { IfOk result (λ c. app_of c ≡ worded_app name.entry.now) }
    ensures local { IfOk result (λ c. (out-Command c).has_globals ≡ false) }
{
    Command::new(alloc, name)
        .arg(kind(alloc))?
        .arg(option(alloc, "branching"))?
        .arg(option(alloc, "queue"))?
        .arg(option(alloc, "workers"))?
        .arg(option(alloc, "nodes"))?
        .arg(option(alloc, "capacity"))?
        .arg(option(alloc, "seed"))?
        .arg(option(alloc, "size"))
}

// A problem, by its place.
fn kind<'a>(alloc: Global) -> Arg<'a>
    ensures rule { rule_of result ≡ kind_rule }
    ensures local { result.global ≡ false }
{
    Arg::new(alloc, "kind").action(ArgAction::Set)
}

// An option: a text, which is given at most once.
fn option<'a>(alloc: Global, name: &'a str) -> Arg<'a>
    ensures rule { rule_of result ≡ option_rule name.entry.now }
    ensures local { result.global ≡ false }
{
    Arg::new(alloc, name).long(name).action(ArgAction::Set)
}
