//! Job shops and start times of their operations.

mod laws;
mod reading;
mod writing;

pub use laws::{shop_texts_are_read, written_shops_are_read};
pub use reading::{next_shop, read_shop};
use std::marker::Model;
pub use writing::{write_shop, write_starts};

/// One operation of a job: the machine that it needs, and for how long.
#[derive(Clone, Copy, Debug, PartialEq, Eq)]
pub struct Operation {
    /// Below the number of machines.
    pub machine: u32,
    /// 0 to 67,108,863, which is also the limit of the sum of all times.
    pub time: u32,
}

/// A job shop: its number of machines, and for each job its operations in the order of their steps. Machines,
/// jobs and steps are numbered from 0.
///
/// There are 1 to 100 machines and 1 to 100 jobs; a job has as many operations as there are machines, and all
/// together are at most 1,024. A job may need a machine more than once or not at all. All times add up to at
/// most 67,108,863.
#[derive(Debug, Drop)]
pub struct Jobs {
    pub machines: u32,
    pub rows: Vec<Vec<Operation>>,
}

impl Model for Jobs {
    ghost use Rattle.std.specs.Prelude.{map};
    ghost use Rattle.inst_text.specs.Shop.{JobShop, IsJobShop};

    ghost Value = { JobShop };

    ghost view = { λ s. record { machines = s.machines; rows = map (λ row. row.items) s.rows.items } };

    ghost invariant = { λ s. IsJobShop (record { machines = s.machines; rows = map (λ row. row.items) s.rows.items }) };
}

/// The start times of a shop's operations, a row for each job, each time at most 67,108,863.
#[derive(Debug, Drop)]
pub struct Starts {
    pub rows: Vec<Vec<u32>>,
}

impl Model for Starts {
    ghost use Rattle.std.specs.Prelude.{ℕ, List, map};
    ghost use Rattle.inst_text.specs.Shop.{AreStarts};

    ghost Value = { List (List ℕ) };

    ghost view = { λ s. map (λ row. row.items) s.rows.items };

    ghost invariant = { λ s. AreStarts (map (λ row. row.items) s.rows.items) };
}
