// Whether joined links are true: the design leads from the one mark to the other. It is a check of the replay itself, which right entries can't fail:
// they join a link only by the state that the design leads to, and open it where the mark before it changes.
use crate::mark::Mark;
use crate::states::{advanced, same};
use book_history::link::Link;
use ls_text::NoMemory;
use machine::row_runs::RowRuns;
use std::alloc::Global;
use stimulus::Row;

// Whether the link to this mark is true, where it is joined. One that was found true and hasn't changed since isn't run again.
fn is_true_at(
    alloc: Global,
    marks: &mut [Mark],
    at: usize,
    rows: &RowRuns<Row>,
) -> Result<bool, NoMemory> {
    if at == 0 || at >= marks.len() || marks[at].is_checked || marks[at].link != Link::Joined {
        return Ok(true);
    }
    let begin = &marks[at - 1];
    let end = &marks[at];
    let Some(own) = advanced(alloc, rows, &begin.own, begin.cycle, end.cycle)? else {
        return Ok(false);
    };
    let is_true = same(&own, &end.own);
    marks[at].is_checked = is_true;
    Ok(is_true)
}

/// Whether each joined link leads from the one mark to the other.
pub fn are_true(alloc: Global, marks: &mut [Mark], rows: &RowRuns<Row>) -> Result<bool, NoMemory> {
    for at in 1..marks.len() {
        if !is_true_at(alloc, marks, at, rows)? {
            return Ok(false);
        }
    }
    Ok(true)
}
