// A run: marks at the multiples of the interval and at the end, and every other one taken out where there are too many.
use crate::mark::Mark;
use crate::states::advanced;
use book_history::link::Link;
use ls_text::NoMemory;
use machine::row_runs::RowRuns;
use std::alloc::Global;
use stimulus::Row;

/// The number of marks at which every other one is taken out.
const TOO_MANY: usize = 1025;

// Joined where both are.
fn both(one: Link, other: Link) -> Link {
    if one == Link::Joined && other == Link::Joined {
        return Link::Joined;
    }
    Link::Open
}

// Takes a mark out that isn't the last one. The link over both is joined where both were.
fn take_out(marks: &mut Vec<Mark>, at: usize) {
    if at == 0 || at >= marks.len() || marks.len() - at < 2 {
        return;
    }
    let link = both(marks[at].link, marks[at + 1].link);
    marks[at + 1].link = link;
    marks[at + 1].is_checked = false;
    marks.remove(at);
}

// Takes every other mark out, from the second one on. What was mark 2 n - 1 stands at n once n - 1 are out.
fn thin(marks: &mut Vec<Mark>) {
    for at in 1..marks.len() {
        take_out(marks, at);
    }
}

// A mark more, to which the design leads from the last one.
fn add_mark(
    alloc: Global,
    marks: &mut Vec<Mark>,
    cycle: u64,
    rows: &RowRuns<Row>,
) -> Result<bool, NoMemory> {
    let Some(last) = marks.last() else {
        return Ok(false);
    };
    let Some(own) = advanced(alloc, rows, &last.own, last.cycle, cycle)? else {
        return Ok(false);
    };
    marks.push(Mark {
        cycle,
        link: Link::Joined,
        is_checked: false,
        own,
    })?;
    if marks.len() == TOO_MANY {
        thin(marks);
    }
    Ok(true)
}

fn is_on_grid(interval: u64, cycle: u64) -> bool {
    interval != 0 && cycle % interval == 0
}

/// The marks of a run from cycle `start` to cycle `end`: at each multiple of the interval between them, and at the end. False where rows lack.
pub fn run(
    alloc: Global,
    marks: &mut Vec<Mark>,
    interval: u64,
    start: u64,
    end: u64,
    rows: &RowRuns<Row>,
) -> Result<bool, NoMemory> {
    for cycle in start.saturating_add(1)..end {
        if is_on_grid(interval, cycle) && !add_mark(alloc, marks, cycle, rows)? {
            return Ok(false);
        }
    }
    add_mark(alloc, marks, end, rows)
}
