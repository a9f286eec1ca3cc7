// Runs that follow each other with one row become one run.
ghost use Rattle.std.specs.Prelude.{◌≡◌, ℕ, IfOk};
ghost use Rattle.machine.specs.Rows.{expanded, IsGapless};

use crate::Machine;
use crate::row_run::RowRun;
use crate::row_runs::{RowRuns, append_run};
use ls_text::NoMemory;
use std::alloc::Global;

/// The run at this place and the one before it become one where the machine takes their rows as the same. The rows of
/// the cycles stay what they were.
pub fn merge_at<M: Machine>(list: &mut Vec<RowRun<M::Row>>, at: usize)
    ensures rows { (a b : ℕ) → IsGapless a list.old.items b → expanded list.new.items ≡ expanded list.old.items }
    ensures gapless { (a b : ℕ) → IsGapless a list.old.items b → IsGapless a list.new.items b }
{
    if at == 0 || at >= list.len() {
        return;
    }
    if !M::same_row(&list[at - 1].row, &list[at].row) {
        return;
    }
    let end = list[at].end;
    list.remove(at);
    list[at - 1].end = end;
}

/// The same rows, in which runs that follow each other are one run where the machine takes their rows as the same. The time
/// is linear in the number of runs.
pub fn merged_rows<M: Machine>(
    alloc: Global,
    rows: &RowRuns<M::Row>,
) -> Result<RowRuns<M::Row>, NoMemory>
    ensures { IfOk result (λ r. r ≡ rows.now) }
{
    let runs = rows.runs();
    if runs.len() < 2 {
        return rows.share();
    }
    let mut merged = Vec::new(alloc);
    for run in runs {
        append_run(&mut merged, run)?;
        let last = merged.len() - 1;
        merge_at::<M>(&mut merged, last);
    }
    RowRuns::new(rows.start(), rows.end(), merged)
}
