//! The commands, each from its input to an answer or a refusal. The problem that a command names is chosen here, and
//! nowhere else; and so is the queue.

ghost use Rattle.std.specs.Prelude.{◌≡◌, IfOk, IfErr};
ghost use Rattle.bb_pool.specs.Limits.{max_nodes};
ghost use Rattle.pq_cli.specs.declared.commands.task.Task.TheVariants as tasks;
ghost use Rattle.pq_cli.specs.Answers.{status_in, text_in, IsWritable};
ghost use Rattle.cli_words.specs.Limits.{HasLimits, AreWithin};
ghost use Rattle.cli_words.specs.Queues.{IsStill};
ghost use Rattle.pq_cli.specs.CommandLimits.{HasTaskLimits, IsShared};
ghost use Rattle.pq_cli.specs.Commands.{duty_of, used_work, task_work};
ghost use Rattle.pq_cli.specs.Duties.{reads_input, IsInput, Fulfils};
ghost use Rattle.pq_cli.specs.Problems.{used};
ghost use Rattle.pq_cli.specs.Runs.{Answers, Stops};
ghost use Rattle.pq_cli.specs.Streams.{change};
ghost use Rattle.pq_cli.specs.Work.{Meets};

mod audit;
mod bound;
mod check;
mod drill;
mod make;
mod prove;
mod solve;
mod task;
mod trace;
mod verify;

use crate::answer::Answer;
use crate::commands::audit::audit;
use crate::commands::bound::bound;
use crate::commands::check::check;
use crate::commands::drill::drill;
use crate::commands::make::make;
use crate::commands::prove::{prove, prove_on};
use crate::commands::solve::{solve, solve_on};
use crate::commands::task::Task;
use crate::commands::trace::{trace, trace_on};
use crate::commands::verify::verify;
use crate::problem::UsedProblem;
use crate::refusal::Refusal;
use bb_knap::Knapsack;
use bb_onemach::ActiveShop;
use bb_shop::Shop;
use cli_words::{Branching, Command, Kind, Limits, Which};
use pq_api::{BoundedQueue, Gate};
use pq_hunt::{HuntHeap, HuntRule};
use pq_io::{Source, gather_input};
use pq_seats::{SeatRule, SeatedQueue};
use std::alloc::Global;
use std::sync::Wait;
use std::thread::Threads;

/// What the command answers to the input, where it needs no threads.
#[tactic(auto, using(crate::proofs::Explained::fulfilled))]
pub fn answer_still<I: Source>(
    alloc: Global,
    command: Command,
    input: &mut I,
) -> Result<Answer, Refusal>
    requires limits { HasLimits command }
    requires still { IsStill command }
    ensures answers { IfOk result (λ a.
        Answers (duty_of command) (status_in a) (text_in a) (change I.left I.faults input.old input.new)) }
    ensures writable { IfOk result IsWritable }
    ensures stops { IfErr result (Stops (duty_of command) (change I.left I.faults input.old input.new)) }
{
    let bytes = input_of(alloc, command, input)?;
    work_still(alloc, command, &bytes)
}

/// What the command answers to the input, with this gate at the points of the queue's calls. A queue has its one arm
/// here.
#[tactic(auto, using(crate::proofs::Explained::fulfilled, crate::proofs::Shared::queue_is_shared))]
pub fn answer<Rt: Threads + Wait + Sync, I: Source, G: Gate>(
    rt: &Rt,
    alloc: Global,
    command: Command,
    input: &mut I,
    gate: &G,
) -> Result<Answer, Refusal>
    requires limits { HasLimits command }
    ensures answers { IfOk result (λ a.
        Answers (duty_of command) (status_in a) (text_in a) (change I.left I.faults input.old input.new)) }
    ensures writable { IfOk result IsWritable }
    ensures stops { IfErr result (Stops (duty_of command) (change I.left I.faults input.old input.new)) }
{
    let bytes = input_of(alloc, command, input)?;
    match command.queue() {
        Some(Which::Hunt) => work_on::<Rt, HuntHeap<&G>, HuntRule>(
            rt, alloc, command, &bytes, gate,
        ),
        Some(Which::Plain) | None => work_still(alloc, command, &bytes),
    }
}

// Whether the command reads an input.
fn reads_input(command: Command) -> bool
    ensures { result ≡ reads_input (duty_of command) }
{
    !matches!(command, Command::Make { .. } | Command::Drill { .. })
}

// All that the input holds, where the command reads one. Else the input is left alone.
#[tactic(auto, using(crate::proofs::Explained::duty_input_stops))]
fn input_of<I: Source>(alloc: Global, command: Command, input: &mut I) -> Result<Vec<u8>, Refusal>
    ensures read { IfOk result (λ bytes.
        IsInput (duty_of command) (change I.left I.faults input.old input.new) bytes.items) }
    ensures stops { IfErr result (Stops (duty_of command) (change I.left I.faults input.old input.new)) }
{
    if !reads_input(command) {
        return Ok(Vec::new(alloc));
    }
    let bytes = gather_input(alloc, input)?;
    Ok(bytes)
}

// What a command that uses a queue answers to these bytes, where the queue is of this kind, and its words stand under this
// rule.
fn work_on<Rt: Threads + Wait + Sync, Q: BoundedQueue + SeatedQueue<Rule = L>, L: SeatRule>(
    rt: &Rt,
    alloc: Global,
    command: Command,
    bytes: &[u8],
    gate: Q::Gate,
) -> Result<Answer, Refusal>
where
    Q::Gate: Copy,
    requires shared { IsShared Q.SEATS Q.CAPACITY command }
    ensures { Fulfils (duty_of command) bytes.now result }
{
    match command {
        Command::Solve {
            kind,
            branching,
            workers,
            nodes,
            capacity,
            ..
        } => {
            let limits = Limits {
                workers,
                nodes,
                capacity,
            };
            solve_named::<Rt, Q>(rt, alloc, kind, branching, bytes, limits, gate)
        }
        Command::Prove {
            workers,
            nodes,
            capacity,
            ..
        } => {
            let limits = Limits {
                workers,
                nodes,
                capacity,
            };
            prove_on::<Rt, Q>(rt, alloc, bytes, limits, gate)
        }
        Command::Trace { capacity, .. } => trace_on::<Rt, Q>(rt, alloc, bytes, capacity, gate),
        Command::Drill {
            workers,
            seed,
            size,
            ..
        } => drill::<Rt, Q>(rt, alloc, workers, seed, size, gate),
        Command::Bound { .. }
        | Command::Check { .. }
        | Command::Verify
        | Command::Audit
        | Command::Make { .. } => { unreachable!() }
    }
}

// What the command answers to these bytes, where it needs no threads.
fn work_still(alloc: Global, command: Command, bytes: &[u8]) -> Result<Answer, Refusal>
    requires limits { HasLimits command }
    requires still { IsStill command }
    ensures { Fulfils (duty_of command) bytes.now result }
{
    match command {
        Command::Solve {
            kind,
            branching,
            queue: Which::Plain,
            workers,
            nodes,
            capacity,
        } => {
            let limits = Limits {
                workers,
                nodes,
                capacity,
            };
            on_problem(alloc, kind, branching, Task::Solve(limits), bytes)
        }
        Command::Bound { kind, branching } => on_problem(
            alloc,
            kind,
            branching,
            Task::Bound,
            bytes,
        ),
        Command::Check { kind } => on_problem(alloc, kind, Branching::Dispatch, Task::Check, bytes),
        Command::Prove {
            queue: Which::Plain,
            workers,
            nodes,
            capacity,
        } => {
            let limits = Limits {
                workers,
                nodes,
                capacity,
            };
            prove(alloc, bytes, limits)
        }
        Command::Verify => verify(alloc, bytes),
        Command::Trace {
            queue: Which::Plain,
            capacity,
        } => trace(alloc, bytes, capacity),
        Command::Audit => audit(alloc, bytes),
        Command::Make { kind, seed, size } => make(alloc, kind, seed, size),
        Command::Solve { .. }
        | Command::Prove { .. }
        | Command::Trace { .. }
        | Command::Drill { .. } => unreachable!(),
    }
}

// The task, done on the problem that is named. A problem has its one line here.
fn on_problem(
    alloc: Global,
    kind: Kind,
    branching: Branching,
    task: Task,
    bytes: &[u8],
) -> Result<Answer, Refusal>
    requires { HasTaskLimits task }
    ensures { Meets (used_work (used kind branching) task) bytes.now result }
{
    match (kind, branching) {
        (Kind::Knapsack, _) => perform::<Knapsack>(alloc, task, bytes),
        (Kind::Shop, Branching::Dispatch) => perform::<Shop>(alloc, task, bytes),
        (Kind::Shop, Branching::Active) => perform::<ActiveShop>(alloc, task, bytes),
    }
}

// A best plan of the problem that is named, found by a search over a queue of this kind. A problem has a line here too:
// one trait does not do for a search by one thread and one by several.
fn solve_named<Rt: Threads + Wait + Sync, Q: BoundedQueue>(
    rt: &Rt,
    alloc: Global,
    kind: Kind,
    branching: Branching,
    bytes: &[u8],
    limits: Limits,
    gate: Q::Gate,
) -> Result<Answer, Refusal>
where
    Q::Gate: Copy,
    requires { AreWithin Q.SEATS max_nodes Q.CAPACITY limits }
    ensures { Meets (used_work (used kind branching) (tasks.Solve limits)) bytes.now result }
{
    match (kind, branching) {
        (Kind::Knapsack, _) => solve_on::<Rt, Q, Knapsack>(rt, alloc, bytes, limits, gate),
        (Kind::Shop, Branching::Dispatch) => {
            solve_on::<Rt, Q, Shop>(rt, alloc, bytes, limits, gate)
        }
        (Kind::Shop, Branching::Active) => {
            solve_on::<Rt, Q, ActiveShop>(rt, alloc, bytes, limits, gate)
        }
    }
}

// The task, done on an instance of a problem that the bytes read as.
fn perform<P: UsedProblem>(alloc: Global, task: Task, bytes: &[u8]) -> Result<Answer, Refusal>
    requires { HasTaskLimits task }
    ensures { Meets (task_work P.meaning P.texts task) bytes.now result }
{
    match task {
        Task::Solve(limits) => solve::<P>(alloc, bytes, limits),
        Task::Bound => bound::<P>(alloc, bytes),
        Task::Check => check::<P>(alloc, bytes),
    }
}
