// What histories of tests have beside their entries, and what the entries make of it.
use crate::coming::{Coming, load};
use crate::histories::{D, OTHER_D};
use book_history::entry::Entry;
use book_history::link::Link;
use book_history::load::Load;
use cycle_eval::Design;
use history_replay::mark::Mark;
use history_replay::replaying::{are_right, replayed};
use history_replay::settings::Settings;
use ls_text::{NameId, NoMemory};
use machine::row_runs::RowRuns;
use reg_ops::{RegOp, RegOps};
use std::alloc::Global;
use std::process::Abort;
use std::sync::Arc;
use std::test::Fail;
use stimulus::{Record, RecordRefusal, Row};
use typed_ir::RegisterId;

/// The settings, the versions, with the operations of each reload, and the rows: for so many cycles, the values of two inputs.
#[derive(Drop)]
pub struct Given {
    pub settings: Settings,
    pub loads: Vec<Coming>,
    pub ops: Vec<RegOp>,
    pub rows: Vec<(u64, u128, u128)>,
}

fn loads_of(
    rt: &impl Abort,
    alloc: Global,
    given: &Given,
) -> Result<Vec<Load<Design, RegOps>>, NoMemory> {
    let mut loads = Vec::new(alloc);
    for coming in &given.loads {
        loads.push(load(rt, alloc, *coming, &given.ops)?)?;
    }
    Ok(loads)
}

fn record_of(
    rt: &impl Abort,
    alloc: Global,
    list: &[(u64, u128, u128)],
) -> Result<Record, RecordRefusal> {
    let mut record = Record::new(alloc, 1000);
    for (cycles, value, other) in list {
        assert!(rt; 1 <= *cycles && *cycles <= 2000);
        assert!(rt; record.len() <= 2000);
        let mut row = Row::new(alloc);
        row.put(NameId(D), *value)?;
        row.put(NameId(OTHER_D), *other)?;
        record.append(Arc::new(alloc, row)?, *cycles)?;
    }
    Ok(record)
}

/// The rows of these stretches of cycles, from cycle 0 on.
pub fn rows_of(
    rt: &impl Abort,
    alloc: Global,
    list: &[(u64, u128, u128)],
) -> Result<RowRuns<Row>, Fail> {
    let record = record_of(rt, alloc, list)?;
    let end = record.len();
    Ok(record.slice(alloc, 0, end)?)
}

/// Whether these entries are right with what is given.
pub fn right(
    rt: &impl Abort,
    alloc: Global,
    given: &Given,
    entries: &[Entry],
) -> Result<bool, Fail> {
    let loads = loads_of(rt, alloc, given)?;
    let rows = rows_of(rt, alloc, &given.rows)?;
    Ok(are_right(alloc, given.settings, entries, &loads, &rows)?)
}

/// The cycle of a mark, the link that leads to it, and the register, 256 where there is none.
pub fn seen(mark: &Mark) -> (u64, Link, u128) {
    if mark.own.state.is_empty() {
        return (mark.cycle, mark.link, 256);
    }
    let register = mark.own.state.read(RegisterId(0));
    (mark.cycle, mark.link, register.value())
}

/// The marks that these entries make of what is given; no mark where one of them isn't right where it stands.
pub fn marks(
    rt: &impl Abort,
    alloc: Global,
    given: &Given,
    entries: &[Entry],
) -> Result<Vec<(u64, Link, u128)>, Fail> {
    let loads = loads_of(rt, alloc, given)?;
    let rows = rows_of(rt, alloc, &given.rows)?;
    let mut list = Vec::new(alloc);
    if let Some(replay) = replayed(alloc, given.settings, entries, &loads, &rows)? {
        for mark in &replay.marks {
            list.push(seen(mark))?;
        }
    }
    Ok(list)
}
