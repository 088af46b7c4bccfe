//! The command of a name with the settings that are said.

ghost use Rattle.std.specs.Prelude.{◌≡◌, IfSome};
ghost use Rattle.cli_words.specs.Limits.{HasLimits};
ghost use Rattle.cli_words.specs.Words.{is_unlimited, is_unmade, is_silent};
ghost use Rattle.cli_words.specs.CommandWords.{command_from, solve_from, kind_alone};
ghost use Rattle.cli_words.specs.CommandWords.{bound_from, check_from, prove_from, verify_from, trace_from, audit_from};
ghost use Rattle.cli_words.specs.CommandWords.{make_from, drill_from};

use crate::command::{Command, Kind};
use crate::queues::{queue_for, with_threads};
use crate::ranges::{
    branching_for, capacity_for, inserts_for, nodes_for, room_for, seed_for, size_for, workers_for,
};
use crate::settings::Settings;

/// The command of this name with these settings.
pub fn command_from(name: &[u8], said: Settings) -> Option<Command>
    ensures exact { result ≡ command_from name.now said }
    ensures limits { IfSome result HasLimits }
{
    if name == b"solve".as_slice() {
        solve_from(said)
    } else if name == b"bound".as_slice() {
        bound_from(said)
    } else if name == b"check".as_slice() {
        check_from(said)
    } else if name == b"prove".as_slice() {
        prove_from(said)
    } else if name == b"verify".as_slice() {
        verify_from(said)
    } else if name == b"trace".as_slice() {
        trace_from(said)
    } else if name == b"audit".as_slice() {
        audit_from(said)
    } else if name == b"make".as_slice() {
        make_from(said)
    } else if name == b"drill".as_slice() {
        drill_from(said)
    } else {
        None
    }
}

// A problem, for a shop a branching, and what a search on the queue may have.
#[tactic(auto, unfolding(crate::specs::CommandWords::solve_from))]
fn solve_from(said: Settings) -> Option<Command>
    ensures exact { result ≡ solve_from said }
    ensures limits { IfSome result HasLimits }
{
    let kind = said.kind?;
    let branching = branching_for(kind, said.branching)?;
    let queue = queue_for(said.queue);
    let workers = workers_for(queue, said.workers)?;
    let nodes = nodes_for(queue, said.nodes)?;
    let capacity = room_for(queue, workers, nodes, said.capacity)?;
    if is_unmade(&said) {
        Some(Command::Solve {
            kind,
            branching,
            queue,
            workers,
            nodes,
            capacity,
        })
    } else {
        None
    }
}

// No option was said.
fn is_silent(said: &Settings) -> bool
    ensures { result ≡ is_silent said.now }
{
    said.branching.is_none() && is_unlimited(said) && is_unmade(said)
}

// No option of what is made was said.
fn is_unmade(said: &Settings) -> bool
    ensures { result ≡ is_unmade said.now }
{
    said.seed.is_none() && said.size.is_none()
}

// No option of a search was said.
fn is_unlimited(said: &Settings) -> bool
    ensures { result ≡ is_unlimited said.now }
{
    said.queue.is_none()
        && said.workers.is_none()
        && said.nodes.is_none()
        && said.capacity.is_none()
}

// A problem, and no option.
#[tactic(auto, unfolding(crate::specs::CommandWords::kind_alone))]
fn kind_alone(said: Settings) -> Option<Kind>
    ensures { result ≡ kind_alone said }
{
    let kind = said.kind?;
    if is_silent(&said) { Some(kind) } else { None }
}

// A problem, and how it is branched.
#[tactic(auto, unfolding(crate::specs::CommandWords::bound_from))]
fn bound_from(said: Settings) -> Option<Command>
    ensures exact { result ≡ bound_from said }
    ensures limits { IfSome result HasLimits }
{
    let kind = said.kind?;
    let branching = branching_for(kind, said.branching)?;
    if is_unlimited(&said) && is_unmade(&said) {
        Some(Command::Bound { kind, branching })
    } else {
        None
    }
}

// A problem, and no option.
#[tactic(auto, unfolding(crate::specs::CommandWords::check_from))]
fn check_from(said: Settings) -> Option<Command>
    ensures exact { result ≡ check_from said }
    ensures limits { IfSome result HasLimits }
{
    let kind = kind_alone(said)?;
    Some(Command::Check { kind })
}

// A knapsack, and what a search on the queue may have.
fn prove_from(said: Settings) -> Option<Command>
    ensures exact { result ≡ prove_from said }
    ensures limits { IfSome result HasLimits }
{
    match solve_from(said)? {
        Command::Solve {
            kind: Kind::Knapsack,
            branching: _,
            queue,
            workers,
            nodes,
            capacity,
        } => Some(Command::Prove {
            queue,
            workers,
            nodes,
            capacity,
        }),
        _ => None,
    }
}

// A knapsack, and no option.
#[tactic(auto, unfolding(crate::specs::CommandWords::verify_from))]
fn verify_from(said: Settings) -> Option<Command>
    ensures exact { result ≡ verify_from said }
    ensures limits { IfSome result HasLimits }
{
    match kind_alone(said)? {
        Kind::Knapsack => Some(Command::Verify),
        Kind::Shop => None,
    }
}

// A queue and a capacity.
#[tactic(auto, unfolding(crate::specs::CommandWords::trace_from))]
fn trace_from(said: Settings) -> Option<Command>
    ensures exact { result ≡ trace_from said }
    ensures limits { IfSome result HasLimits }
{
    let queue = queue_for(said.queue);
    let capacity = capacity_for(queue, said.capacity)?;
    if said.kind.is_none()
        && said.branching.is_none()
        && said.workers.is_none()
        && said.nodes.is_none()
        && is_unmade(&said)
    {
        Some(Command::Trace { queue, capacity })
    } else {
        None
    }
}

// No problem, and no option.
#[tactic(auto, unfolding(crate::specs::CommandWords::audit_from))]
fn audit_from(said: Settings) -> Option<Command>
    ensures exact { result ≡ audit_from said }
    ensures limits { IfSome result HasLimits }
{
    if said.kind.is_none() && is_silent(&said) {
        Some(Command::Audit)
    } else {
        None
    }
}

// A problem, a seed and a size.
#[tactic(auto, unfolding(crate::specs::CommandWords::make_from))]
fn make_from(said: Settings) -> Option<Command>
    ensures exact { result ≡ make_from said }
    ensures limits { IfSome result HasLimits }
{
    let kind = said.kind?;
    let seed = seed_for(said.seed)?;
    let size = size_for(kind, said.size)?;
    if said.branching.is_none() && is_unlimited(&said) {
        Some(Command::Make { kind, seed, size })
    } else {
        None
    }
}

// A queue that needs threads, workers, a seed and a size.
#[tactic(auto, unfolding(crate::specs::CommandWords::drill_from))]
fn drill_from(said: Settings) -> Option<Command>
    ensures exact { result ≡ drill_from said }
    ensures limits { IfSome result HasLimits }
{
    let queue = with_threads(queue_for(said.queue))?;
    let workers = workers_for(queue, said.workers)?;
    let seed = seed_for(said.seed)?;
    let size = inserts_for(said.size)?;
    if said.kind.is_none()
        && said.branching.is_none()
        && said.nodes.is_none()
        && said.capacity.is_none()
    {
        Some(Command::Drill {
            queue,
            workers,
            seed,
            size,
        })
    } else {
        None
    }
}
