//! `drill`: lanes on a queue, and a search over one of its kind, both made from a number.

ghost use Rattle.std.specs.Prelude.{◌≡◌, ◌+◌, ◌*◌, ◌≤◌, ◌<◌, length, IfOk, IfErr};
ghost use Rattle.pq_words.specs.Limits.{place_limit};
ghost use Rattle.inst_text.specs.Generator.{made_knapsack, made_script};
ghost use Rattle.inst_text.specs.Limits.{max_made_inserts};
ghost use Rattle.pq_lanes.specs.Drills.{drill_capacity};
ghost use Rattle.pq_lanes.specs.Tracing.{IsTraceOf};
ghost use Rattle.bb_problem.specs.Tree.{needed};
ghost use Rattle.bb_knap.specs.Branching.{tree_of, least_cost};
ghost use Rattle.pq_cli.specs.declared.refusal.Refusal.TheVariants as refusals;
ghost use Rattle.bb_pool.specs.Limits.{max_nodes};
ghost use Rattle.cli_words.specs.Limits.{AreWithin};
ghost use Rattle.pq_cli.specs.CommandLimits.{IsDrillWithin, drill_limits};
ghost use Rattle.pq_cli.specs.Drilling.{drill_items, drill_nodes, drill_text, greatest_value};
ghost use Rattle.pq_cli.specs.Duties.{IsMade};
ghost use Rattle.pq_cli.specs.Texts.{summary_text};

use crate::answer::Answer;
use crate::laws::greatest_value_is_best;
use crate::planning::best_plan_on;
use crate::refusal::Refusal;
use crate::status::Status;
use bb_knap::{Knapsack, best_is_cheapest};
use bb_problem::needed_is_at_most_tree_size;
use cli_words::Limits;
use inst_text::{make_knapsack, make_script};
use pq_api::BoundedQueue;
use pq_io::NoMemory;
use pq_lanes::{drills_leave_nothing, made_scripts_are_drills, trace_script};
use pq_tape::History;
use std::alloc::Global;
use std::sync::Wait;
use std::thread::Threads;

// How many items the knapsack of a drill has.
const ITEMS: u32 = 12;

// How many nodes its search may make; the tree of so many items has fewer.
const NODES: u32 = 16_000;

// What the lanes of a drill came to.
#[derive(Clone, Copy, Debug)]
struct Ended {
    // How many marks their history has.
    marks: u32,
    // How many entries it leaves.
    left: u32,
}

/// What lanes on a queue of this kind came to, and then the value of a best choice that a search over another one
/// found. No input is read.
///
/// There are as many lanes as workers. Each inserts so many entries, and then removes as many.
pub fn drill<Rt: Threads + Wait + Sync, Q: BoundedQueue>(
    rt: &Rt,
    alloc: Global,
    workers: u32,
    seed: u32,
    size: u32,
    gate: Q::Gate,
) -> Result<Answer, Refusal>
where
    Q::Gate: Copy,
    requires { IsDrillWithin Q.SEATS Q.CAPACITY workers size }
    ensures { IsMade (drill_text workers seed size) result }
{
    let history = run_made::<Rt, Q>(rt, alloc, workers, seed, size, gate)?;
    let ended = counted(&history);
    let value = solve_made::<Rt, Q>(rt, alloc, workers, seed, gate)?;
    let text = summary_text(alloc, ended.marks, ended.left, value)?;
    Ok(Answer::Text {
        status: Status::Ok,
        text,
    })
}

// The history of the lanes that belong to the seed, on a queue which none of them ever finds full.
fn run_made<Rt: Threads + Wait + Sync, Q: BoundedQueue>(
    rt: &Rt,
    alloc: Global,
    workers: u32,
    seed: u32,
    size: u32,
    gate: Q::Gate,
) -> Result<History, NoMemory>
    requires some { 1 ≤ workers }
    requires few { workers ≤ Q.SEATS }
    requires size { size ≤ max_made_inserts }
    requires capacity { drill_capacity workers size ≤ Q.CAPACITY }
    ensures trace { IfOk result (λ h.
        IsTraceOf (drill_capacity workers size) (made_script seed workers size) h.marks) }
    ensures marks { IfOk result (λ h. length h.marks ≡ 2 * (workers * size)) }
    ensures left { IfOk result (λ h. h.left ≡ 0) }
{
    let script = make_script(alloc, seed, workers, size)?;
    made_scripts_are_drills();
    let capacity = workers * size + workers;
    let history = trace_script::<Rt, Q>(rt, alloc, &script, capacity, gate)?;
    drills_leave_nothing();
    Ok(history)
}

// What a history tells, and nothing of what was asked for.
fn counted(history: &History) -> Ended
    requires few { length history.now.marks < place_limit }
    ensures marks { result.marks ≡ length history.now.marks }
    ensures left { result.left ≡ history.now.left }
{
    Ended {
        marks: history.marks.len() as u32,
        left: history.left,
    }
}

// The value of a best choice of the knapsack that belongs to the seed.
fn solve_made<Rt: Threads + Wait + Sync, Q: BoundedQueue>(
    rt: &Rt,
    alloc: Global,
    workers: u32,
    seed: u32,
    gate: Q::Gate,
) -> Result<u32, Refusal>
where
    Q::Gate: Copy,
    requires { AreWithin Q.SEATS max_nodes Q.CAPACITY (drill_limits workers) }
    ensures value { IfOk result (λ v. v ≡ greatest_value (made_knapsack seed drill_items)) }
    ensures memory { IfErr result (λ r. r ≡ refusals.NoMemory) }
{
    let knapsack = small_knapsack(alloc, seed)?;
    let limits = Limits {
        workers,
        nodes: NODES,
        capacity: NODES + workers,
    };
    let choice = best_plan_on::<Rt, Q, Knapsack>(rt, alloc, &knapsack, limits, gate)?;
    best_is_cheapest();
    greatest_value_is_best();
    Ok(knapsack.value_of(&choice))
}

// The knapsack that belongs to the seed. No search of it has to make as many nodes as it may.
fn small_knapsack(alloc: Global, seed: u32) -> Result<Knapsack, NoMemory>
    ensures made { IfOk result (λ k. k ≡ made_knapsack seed drill_items) }
    ensures small { IfOk result (λ k. needed (tree_of k) (least_cost k) ≤ drill_nodes) }
{
    let knapsack = Knapsack::new(alloc, make_knapsack(alloc, seed, ITEMS)?)?;
    needed_is_at_most_tree_size(&knapsack);
    Ok(knapsack)
}

// The three lines.
fn summary_text(alloc: Global, marks: u32, left: u32, value: u32) -> Result<Vec<u8>, NoMemory>
    ensures { IfOk result (λ text. text.items ≡ summary_text marks left value) }
{
    Ok(format!(in alloc; "marks {marks}\nleft {left}\nvalue {value}\n")?.into_bytes())
}
