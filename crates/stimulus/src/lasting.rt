// Runs of equal rows, as a record changes them: at their end.
ghost use Rattle.std.specs.Prelude.{◌≡◌, ◌<◌, ◌^◌};
ghost use Rattle.stimulus.specs.Runs.{ends_with, with_end, names_in};

use crate::row::Row;
use machine::row_run::RowRun;

/// Whether the last of these runs has this row.
pub fn ends_with(runs: &[RowRun<Row>], row: &Row) -> bool
    ensures { result ≡ ends_with runs.now row.now }
{
    match runs.last() {
        Some(run) => run.row.same(row),
        None => false,
    }
}

/// Lets the last of these runs end at a cycle.
pub fn end_at(runs: &mut Vec<RowRun<Row>>, cycle: u64)
    ensures { runs.new.items ≡ with_end runs.old.items cycle }
{
    let count = runs.len();
    if count > 0 {
        runs[count - 1].end = cycle;
    }
}

/// How many names are set in these runs, together.
pub fn names_in(runs: &[RowRun<Row>]) -> u64
    requires { names_in runs.now < 2 ^ 64 }
    ensures { result ≡ names_in runs.now }
{
    let mut names = 0;
    for run in runs {
        names += run.row.count() as u64;
    }
    names
}
