// One row a cycle, as runs of equal rows.
ghost use Rattle.std.specs.Prelude.{◌≡◌, ◌≤◌, true, length};
ghost use Rattle.machine.specs.Rows.{expanded};
ghost use Rattle.stimulus.specs.Rows.{are_same, names_set};
ghost use Rattle.stimulus.specs.Runs.{are_runs};

use crate::row::Row;
use machine::row_run::RowRun;

/// A row for each cycle from 0 on. The names that are set, counted once for each run of equal rows (`named`), are no more than
/// its limit.
#[derive(Drop)]
pub struct Record {
    pub(crate) limit: u64,
    pub(crate) named: u64,
    pub(crate) runs: Vec<RowRun<Row>>,
    ghost in_runs: { are_runs runs.items ≡ true },
    ghost counted: { named ≡ names_set are_same length (expanded runs.items) },
    ghost within: { named ≤ limit },
}
