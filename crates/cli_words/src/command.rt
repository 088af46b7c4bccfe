//! The commands of the program.

ghost use Rattle.std.specs.Prelude.{◌≡◌};
ghost use Rattle.cli_words.specs.Queues.{needs_threads, queue_of};

use crate::queues::Which;

/// Which problem a command is about.
#[derive(Clone, Copy, Debug, PartialEq, Eq)]
pub enum Kind {
    Knapsack,
    Shop,
}

/// How a search branches.
#[derive(Clone, Copy, Debug, PartialEq, Eq)]
pub enum Branching {
    /// As the problem's first way is: a knapsack by its items, a shop by dispatching.
    Dispatch,
    /// A shop by the jobs that compete for one machine, with bounds over one machine's heads and tails.
    Active,
}

/// A command of the program, with the defaults filled in.
#[derive(Clone, Copy, Debug, PartialEq, Eq)]
pub enum Command {
    /// Reads an instance, and writes a feasible plan that no feasible plan betters.
    Solve {
        kind: Kind,
        /// `Dispatch` for a knapsack.
        branching: Branching,
        queue: Which,
        /// 1 to as many as callers of the queue.
        workers: u32,
        /// How many nodes may be made: at least 1.
        nodes: u32,
        /// How many nodes the queue takes: at least the workers.
        capacity: u32,
    },
    /// Reads an instance, and writes the bound of the root.
    Bound {
        kind: Kind,
        /// `Dispatch` for a knapsack.
        branching: Branching,
    },
    /// Reads an instance and a plan, and says whether the plan is feasible and its stated number true.
    Check {
        kind: Kind,
    },
    /// Reads a script, runs it on a queue, and writes the history of its calls.
    Trace {
        queue: Which,
        /// How many entries the queue takes: at least 1.
        capacity: u32,
    },
    /// Reads a knapsack, and writes a feasible choice that no feasible choice betters, with a proof that none does.
    Prove {
        queue: Which,
        /// As in `Solve`.
        workers: u32,
        nodes: u32,
        capacity: u32,
    },
    /// Reads a knapsack, a choice and a proof, and says whether the choice is proved to be a best one.
    Verify,
    /// Reads a history, and says whether a bounded priority multiset could have answered so.
    Audit,
    /// Writes an instance that is made from a number, and reads nothing.
    Make {
        kind: Kind,
        seed: u32,
        /// How many items a knapsack has, 0 to 1,024; or how many jobs and machines a shop has, 1 to 32.
        size: u32,
    },
    /// Runs lanes and a search that are made from a number on queues of one kind, and writes what they came to. It
    /// reads nothing.
    Drill {
        /// One that needs threads.
        queue: Which,
        /// How many lanes there are, and how many work at the search: 1 to as many as callers of the queue.
        workers: u32,
        seed: u32,
        /// How many entries each lane inserts, and then removes: 0 to 1,000.
        size: u32,
    },
}

impl Command {
    /// The queue that the command uses, if any.
    pub fn queue(self) -> Option<Which>
        ensures { result ≡ queue_of self }
    {
        match self {
            Command::Solve { queue, .. }
            | Command::Prove { queue, .. }
            | Command::Trace { queue, .. }
            | Command::Drill { queue, .. } => { Some(queue) }
            Command::Bound { .. }
            | Command::Check { .. }
            | Command::Verify
            | Command::Audit
            | Command::Make { .. } => None,
        }
    }

    /// The command uses a queue that needs threads.
    pub fn needs_threads(self) -> bool
        ensures { result ≡ needs_threads self }
    {
        match self.queue() {
            Some(queue) => queue.profile().needs_threads,
            None => false,
        }
    }
}
