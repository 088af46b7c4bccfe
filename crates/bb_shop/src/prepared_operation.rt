//! The table of a shop's operations that bounds are taken from.
ghost use Rattle.std.specs.Prelude.{◌≡◌, ◌≤◌, ◌++◌, map, IfOk, OnOk};
ghost use Rattle.inst_text.specs.Limits.{max_total};
ghost use Rattle.inst_text.specs.Shop.{row_time, rows_time};
ghost use Rattle.bb_shop.specs.Tables.{prepared_row, prepared_rows};

use inst_text::Operation;
use pq_io::NoMemory;
use std::alloc::Global;

/// An operation as bounds read it.
#[derive(Clone, Copy, Debug)]
pub struct PreparedOperation {
    /// Its machine and its time.
    pub operation: Operation,
    /// The sum of the times after it in its job.
    pub tail: u32,
}

// The sum of the times of a job. One pass.
fn time_of(row: &[Operation]) -> u32
    requires { row_time row.now ≤ max_total }
    ensures { result ≡ row_time row.now }
{
    let mut time = 0;
    for operation in row {
        time += operation.time;
    }
    time
}

// Adds the operations of a job to the table. One pass.
fn add_row(table: &mut Vec<PreparedOperation>, row: &[Operation]) -> Result<(), NoMemory>
    requires { row_time row.now ≤ max_total }
    ensures { OnOk result (table.new.items ≡ table.old.items ++ prepared_row row.now) }
{
    let mut tail = time_of(row);
    for operation in row {
        tail -= operation.time;
        table.push(PreparedOperation {
            operation: *operation,
            tail,
        })?;
    }
    Ok(())
}

/// The table of the operations of these jobs, one job's after the other's. One pass.
pub fn operation_table(
    alloc: Global,
    rows: &[Vec<Operation>],
) -> Result<Vec<PreparedOperation>, NoMemory>
    requires { rows_time (map (λ row. row.items) rows.now) ≤ max_total }
    ensures { IfOk result (λ table. table.items ≡ prepared_rows (map (λ row. row.items) rows.now)) }
{
    let mut table = Vec::new(alloc);
    for row in rows {
        add_row(&mut table, row.as_slice())?;
    }
    Ok(table)
}
