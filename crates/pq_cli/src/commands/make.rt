//! `make`: an instance from a number.

ghost use Rattle.std.specs.Prelude.{◌≡◌, IfOk};
ghost use Rattle.cli_words.specs.Limits.{IsMadeSize};
ghost use Rattle.pq_cli.specs.Commands.{made_text};
ghost use Rattle.pq_cli.specs.Duties.{IsMade};

use crate::answer::Answer;
use crate::refusal::Refusal;
use crate::status::Status;
use cli_words::Kind;
use inst_text::{make_knapsack, make_shop, write_knapsack, write_shop};
use pq_io::NoMemory;
use std::alloc::Global;

/// The text of the instance of this kind and size that belongs to the seed. No input is read.
pub fn make(alloc: Global, kind: Kind, seed: u32, size: u32) -> Result<Answer, Refusal>
    requires { IsMadeSize kind size }
    ensures { IsMade (made_text kind seed size) result }
{
    let text = made_text(alloc, kind, seed, size)?;
    Ok(Answer::Text {
        status: Status::Ok,
        text,
    })
}

// The text of what is made.
fn made_text(alloc: Global, kind: Kind, seed: u32, size: u32) -> Result<Vec<u8>, NoMemory>
    requires { IsMadeSize kind size }
    ensures { IfOk result (λ text. text.items ≡ made_text kind seed size) }
{
    match kind {
        Kind::Knapsack => write_knapsack(alloc, &make_knapsack(alloc, seed, size)?),
        Kind::Shop => write_shop(alloc, &make_shop(alloc, seed, size)?),
    }
}
