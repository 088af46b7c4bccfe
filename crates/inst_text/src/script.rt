//! Scripts: what the callers of a queue ask of it, lane by lane.

mod laws;
mod lines;
mod reading;

pub use laws::script_texts_are_read;
use pq_model::Act;
pub use reading::read_script;
use std::marker::Model;

/// What the callers of a queue ask of it: a lane for each caller, and in it the caller's commands in order.
///
/// There are 1 to 16 lanes, which have at most 1,048,576 commands all together. A command that asks for a key
/// below a limit has a limit of at most 67,108,864.
#[derive(Debug, Drop)]
pub struct Script {
    pub lanes: Vec<Vec<Act>>,
}

impl Model for Script {
    ghost use Rattle.std.specs.Prelude.{List, map};
    ghost use Rattle.pq_model.specs.declared.marks.Act.{Act};
    ghost use Rattle.inst_text.specs.Script.{IsScript};

    ghost Value = { List (List Act) };

    ghost view = { λ s. map (λ lane. lane.items) s.lanes.items };

    ghost invariant = { λ s. IsScript (map (λ lane. lane.items) s.lanes.items) };
}
