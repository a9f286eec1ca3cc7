// A reload: marks that are carried over, and marks that are simulated again.
use crate::mark::Mark;
use crate::own_state::OwnState;
use crate::states::{advanced, carried, reset};
use book_history::link::Link;
use book_history::version::Version;
use cycle_eval::Design;
use ls_text::NoMemory;
use machine::row_runs::RowRuns;
use reg_ops::RegOps;
use std::alloc::Global;
use std::sync::Arc;
use stimulus::Row;

/// The cycle of the last mark that stands at a limit or before it, or 0.
pub fn chosen(marks: &[Mark], limit: u64) -> u64 {
    let mut cycle = 0;
    for mark in marks {
        if mark.cycle <= limit {
            cycle = mark.cycle;
        }
    }
    cycle
}

// The state that a mark has from the one before it.
fn simulated(
    alloc: Global,
    marks: &[Mark],
    at: usize,
    rows: &RowRuns<Row>,
) -> Result<Option<OwnState>, NoMemory> {
    if at == 0 || at >= marks.len() {
        return Ok(None);
    }
    let begin = &marks[at - 1];
    advanced(alloc, rows, &begin.own, begin.cycle, marks[at].cycle)
}

// The mark under the next version: reset at cycle 0, carried up to the limit, simulated behind it.
fn renew_at(
    alloc: Global,
    marks: &mut Vec<Mark>,
    at: usize,
    version: &Arc<Version<Design>, Global>,
    ops: &RegOps,
    limit: u64,
    rows: &RowRuns<Row>,
) -> Result<bool, NoMemory> {
    if at >= marks.len() {
        return Ok(false);
    }
    let is_kept = marks[at].cycle <= limit;
    let renewed = if at == 0 {
        Some(reset(alloc, version)?)
    } else if is_kept {
        carried(alloc, &marks[at].own, version, ops)?
    } else {
        simulated(alloc, marks, at, rows)?
    };
    let Some(own) = renewed else {
        return Ok(false);
    };
    let link = if at > 0 && is_kept {
        Link::Open
    } else {
        Link::Joined
    };
    let cycle = marks[at].cycle;
    marks[at] = Mark {
        cycle,
        link,
        is_checked: false,
        own,
    };
    Ok(true)
}

/// The marks under the next version, for a limit up to which they are carried over and their links open. False where the operations don't hold, or
/// rows lack.
pub fn renew(
    alloc: Global,
    marks: &mut Vec<Mark>,
    version: &Arc<Version<Design>, Global>,
    ops: &RegOps,
    limit: u64,
    rows: &RowRuns<Row>,
) -> Result<bool, NoMemory> {
    for at in 0..marks.len() {
        if !renew_at(alloc, marks, at, version, ops, limit, rows)? {
            return Ok(false);
        }
    }
    Ok(true)
}
