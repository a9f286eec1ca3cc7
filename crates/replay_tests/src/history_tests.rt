// Histories of designs with a register of 8 bits, to which each cycle adds what the version adds, worked out by hand; and wrong ones.
ghost use Rattle.std.specs.Prelude.{◌≡◌, length, IfOk};

use crate::adders::{Adder, design};
use crate::given::right;
use crate::histories::{
    D, FIVE, Q, ROOMS, SESSION, WORKER, claim, given, install, long, opened, reload, reloaded,
    settled, show, stale, thinned, with,
};
use book_history::entry::Entry;
use book_history::history::History;
use book_history::history_writer::HistoryWriter;
use book_history::version::Version;
use cycle_eval::Design;
use history_replay::{is_over, is_right};
use ls_text::{NameId, NoMemory};
use machine::row_run::RowRun;
use machine::row_runs::RowRuns;
use reg_ops::RegOp;
use std::alloc::Global;
use std::process::Abort;
use std::sync::Arc;
use std::test::Fail;
use stimulus::Row;

// So many rows from cycle 0 on, which set nothing.
fn rows(alloc: Global, cycles: u64) -> Result<RowRuns<Row>, NoMemory>
    ensures start { IfOk result (λ r. r.0 ≡ 0) }
    ensures count { IfOk result (λ r. length r.1 ≡ cycles) }
{
    let mut runs = Vec::new(alloc);
    runs.push(RowRun {
        start: 0,
        end: cycles,
        row: Arc::new(alloc, Row::new(alloc))?,
    })?;
    RowRuns::new(0, cycles, runs)
}

// The history of an open, a run of five cycles and a close, as the book writes it.
fn ran(rt: &impl Abort, alloc: Global) -> Result<History<Design>, NoMemory> {
    let adder = Adder {
        register: Q,
        input: D,
        add: 3,
    };
    let machine = Arc::new(alloc, design(rt, alloc, adder)?)?;
    let version = Arc::new(alloc, Version { number: 1, machine })?;
    let five = rows(alloc, 5)?;
    let mut writer = HistoryWriter::new(alloc, 2, 1, ROOMS)?;
    writer.push_open(version)?;
    writer.push_run(alloc, &five)?;
    writer.push(Entry::Close);
    Ok(writer.into_history())
}

// The history without an entry.
fn no_entry(alloc: Global) -> History<Design> {
    History::empty(alloc, 2, 1, ROOMS)
}

#[test]
fn right_histories(rt: HostRuntime) -> Result<(), Fail> {
    let alloc = rt.alloc();
    let loads = &[opened(3), reloaded(2, 4), reloaded(3, 5)];
    let two = &[opened(3), reloaded(2, 4)];
    assert!(rt; right(&rt, alloc, &given(alloc, 2, two, FIVE)?, &settled(alloc)?)?);
    assert!(rt; right(&rt, alloc, &given(alloc, 2, loads, FIVE)?, &stale(alloc)?)?);
    assert!(rt;
        right(
            &rt,
            alloc,
            &given(alloc, 1, two, &[(1024, 0, 0)])?,
            &thinned(alloc)?
        )?
    );
    assert!(rt;
        right(
            &rt,
            alloc,
            &given(alloc, 1, two, &[(1100, 0, 0)])?,
            &long(alloc)?
        )?
    );
    Ok(())
}

// Whole histories, of which the empty one isn't over.
#[test]
fn whole_histories(rt: HostRuntime) -> Result<(), Fail> {
    let alloc = rt.alloc();
    let ran = ran(&rt, alloc)?;
    assert!(rt; is_right(alloc, &ran)?);
    assert!(rt; is_over(&ran));
    let empty = no_entry(alloc);
    assert!(rt; is_right(alloc, &empty)?);
    assert!(rt; !is_over(&empty));
    Ok(())
}

#[test]
fn wrong_entries(rt: HostRuntime) -> Result<(), Fail> {
    let alloc = rt.alloc();
    let loads = &[opened(3), reloaded(2, 4)];
    let table: &[(usize, Entry)] = &[
        (0, Entry::Open { version: 2 }),
        (1, Entry::Run { n: 4 }),
        (1, Entry::Run { n: 6 }),
        (2, reload(2, 2)),
        (2, reload(3, 4)),
        (3, show(None)),
        (3, show(Some(2))),
        (4, claim(2, 0, 2, SESSION)),
        (4, claim(1, 2, 4, SESSION)),
        (5, install(1, false, SESSION)),
        (5, install(1, true, WORKER)),
        (7, install(1, true, SESSION)),
        (8, show(Some(2))),
        (9, claim(3, 0, 2, SESSION)),
        (9, Entry::Close),
        (11, show(Some(4))),
    ];
    for (at, entry) in table {
        let entries = with(alloc, &settled(alloc)?, *at, *entry)?;
        assert!(rt; !right(&rt, alloc, &given(alloc, 2, loads, FIVE)?, &entries)?);
    }
    Ok(())
}

// Installs that are told as joined and aren't, and a link that thinning took out.
#[test]
fn wrong_answers(rt: HostRuntime) -> Result<(), Fail> {
    let alloc = rt.alloc();
    let loads = &[opened(3), reloaded(2, 4), reloaded(3, 5)];
    let two = &[opened(3), reloaded(2, 4)];
    for at in [5, 9] {
        let ticket = if at == 5 { 1 } else { 3 };
        let entries = with(alloc, &stale(alloc)?, at, install(ticket, true, WORKER))?;
        assert!(rt; !right(&rt, alloc, &given(alloc, 2, loads, FIVE)?, &entries)?);
    }
    let entries = with(alloc, &thinned(alloc)?, 6, claim(2, 0, 1, WORKER))?;
    assert!(rt;
        !right(
            &rt,
            alloc,
            &given(alloc, 1, two, &[(1024, 0, 0)])?,
            &entries
        )?
    );
    let entries = with(alloc, &thinned(alloc)?, 7, install(1, true, WORKER))?;
    assert!(rt;
        !right(
            &rt,
            alloc,
            &given(alloc, 1, two, &[(1024, 0, 0)])?,
            &entries
        )?
    );
    let entries = with(alloc, &long(alloc)?, 2, show(Some(0)))?;
    assert!(rt;
        !right(
            &rt,
            alloc,
            &given(alloc, 1, two, &[(1100, 0, 0)])?,
            &entries
        )?
    );
    Ok(())
}

// Operations of which one drops a register that isn't there.
#[test]
fn wrong_operations(rt: HostRuntime) -> Result<(), Fail> {
    let alloc = rt.alloc();
    let loads = &[opened(3), reloaded(2, 4)];
    let delete = &[RegOp::Delete {
        in_module: NameId(0),
        reg: NameId(99),
    }];
    let mut without = given(alloc, 2, loads, FIVE)?;
    without.ops = Vec::from_slice(alloc, delete)?;
    assert!(rt; !right(&rt, alloc, &without, &settled(alloc)?)?);
    Ok(())
}
