// Whether the entries of a history are right, one by one.
use crate::replay::Replay;
use crate::settings::Settings;
use book_history::entry::Entry;
use book_history::history::History;
use book_history::load::Load;
use cycle_eval::Design;
use ls_text::NoMemory;
use machine::row_runs::{RowRuns, share_between};
use reg_ops::RegOps;
use std::alloc::Global;
use stimulus::Row;

/// What these entries make of a book, with these versions and rows; none where one of them isn't right where it stands.
pub fn replayed(
    alloc: Global,
    settings: Settings,
    entries: &[Entry],
    loads: &[Load<Design, RegOps>],
    rows: &RowRuns<Row>,
) -> Result<Option<Replay>, NoMemory> {
    let mut replay = Replay::new(alloc, settings);
    for entry in entries {
        if !replay.take(alloc, *entry, loads, rows)? {
            return Ok(None);
        }
    }
    Ok(Some(replay))
}

/// Whether these entries are right with these versions and rows, each where it stands, and nothing is left of them.
pub fn are_right(
    alloc: Global,
    settings: Settings,
    entries: &[Entry],
    loads: &[Load<Design, RegOps>],
    rows: &RowRuns<Row>,
) -> Result<bool, NoMemory> {
    match replayed(alloc, settings, entries, loads, rows)? {
        Some(replay) => Ok(replay.is_whole(loads, rows)),
        None => Ok(false),
    }
}

/// Whether each entry of a history stands right where it stands, with each answer that it tells, and each joined link is true behind every entry. The
/// error is want of memory. The cycles of a run, those that a reload simulates and those of an install that joins are run twice, and joined links once more
/// where marks are thinned; a reload looks at the registers of both designs for each mark that it carries over, and each entry walks over the marks, of
/// which there are at most 1,024.
pub fn is_right(alloc: Global, history: &History<Design>) -> Result<bool, NoMemory> {
    let rows = share_between(alloc, 0, history.runs(), 0, history.cycle())?;
    let settings = Settings {
        interval: history.interval(),
        lookback: history.lookback(),
        rooms: history.rooms(),
    };
    are_right(alloc, settings, history.entries(), history.loads(), &rows)
}
