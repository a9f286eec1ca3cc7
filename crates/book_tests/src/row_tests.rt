// The smallest machine over rows whose sums are worked by hand.
ghost use Rattle.std.specs.Prelude.{◌≡◌, ◌<◌, ◌∷◌, [], IfOk};

use ls_text::NoMemory;
use machine::Machine;
use machine::merge::{merge_at, merged_rows};
use machine::row_run::RowRun;
use machine::row_runs::RowRuns;
use machine::steps::Steps;
use machine::tally::TallyMachine;
use std::alloc::Global;
use std::marker::Brand;
use std::sync::Arc;
use std::sync::ledger::{Blank, Ledger};
use std::test::Fail;

/// Row 0 at the cycles 0 and 1, and row 5 at cycle 2.
fn three_rows(alloc: Global) -> Result<RowRuns<u64>, NoMemory>
    ensures { IfOk result (λ r. r ≡ (0, 0 ∷ 0 ∷ 5 ∷ [])) }
{
    let mut runs = Vec::new(alloc);
    runs.push(RowRun {
        start: 0,
        end: 2,
        row: Arc::new(alloc, 0)?,
    })?;
    runs.push(RowRun {
        start: 2,
        end: 3,
        row: Arc::new(alloc, 5)?,
    })?;
    RowRuns::new(0, 3, runs)
}

/// Row 7 at each of 1,000 cycles, in a run of its own.
fn equal_rows(alloc: Global) -> Result<RowRuns<u64>, NoMemory> {
    let mut runs = Vec::new(alloc);
    for cycle in 0..1000 {
        runs.push(RowRun {
            start: cycle,
            end: cycle + 1,
            row: Arc::new(alloc, 7)?,
        })?;
    }
    RowRuns::new(0, 1000, runs)
}

/// The tallies after the three rows from reset, and after the last two of them from 10.
fn tallies<L: Ledger>(alloc: Global, blank: Blank) -> Result<(u64, u64), NoMemory>
    requires name { blank.name ≡ L.name }
    requires parts { blank.parts ≡ L.parts }
    requires some { 0 < blank.parts }
{
    let mut steps = Steps::<L>::start(blank);
    let machine = TallyMachine { add: 3 };
    let rows = three_rows(alloc)?.share()?;
    let reset = machine.reset(alloc)?;
    let whole = machine.advance(alloc, &rows, &reset, 0, 3, &mut steps)?;
    let last = rows.part(alloc, 1, 3)?;
    let late = machine.advance(alloc, &last, &10, 1, 3, &mut steps)?;
    Ok((whole, late))
}

#[test]
fn adds_rows(rt: HostRuntime) -> Result<(), Fail> {
    assert_eq!(rt; tallies::<Brand>(rt.alloc(), Blank::new(1))?, (14, 21));
    Ok(())
}

#[test]
fn reads_rows(rt: HostRuntime) -> Result<(), Fail> {
    let rows = three_rows(rt.alloc())?;
    assert_eq!(rt; (rows.start(), rows.end()), (0, 3));
    assert_eq!(rt; (*rows.row_at(1), *rows.row_at(2)), (0, 5));
    let first = rows.stretch_at(0);
    let last = rows.stretch_at(2);
    assert_eq!(rt; (*first.row, first.end, *last.row, last.end), (0, 2, 5, 3));
    let part = rows.part(rt.alloc(), 1, 2)?;
    assert_eq!(rt; (part.start(), part.end()), (1, 2));
    let mut list = Vec::new(rt.alloc());
    rows.append_to(&mut list)?;
    part.append_to(&mut list)?;
    assert_eq!(rt; list.len(), 3);
    Ok(())
}

/// Three runs with the rows 0, 0 and 5 become two.
#[test]
fn merges_equal_rows(rt: HostRuntime) -> Result<(), Fail> {
    let rows = three_rows(rt.alloc())?;
    let mut list = Vec::new(rt.alloc());
    rows.part(rt.alloc(), 0, 1)?.append_to(&mut list)?;
    rows.part(rt.alloc(), 1, 3)?.append_to(&mut list)?;
    merge_at::<TallyMachine>(&mut list, 2);
    assert_eq!(rt; list.len(), 3);
    merge_at::<TallyMachine>(&mut list, 1);
    assert_eq!(rt; list.len(), 2);
    if let Some(run) = list.first() {
        assert_eq!(rt; (run.start, run.end), (0, 2));
    }
    Ok(())
}

/// A thousand runs of one cycle with row 7 become one, and runs with other rows stay apart.
#[test]
fn merges_runs_that_are_handed_in(rt: HostRuntime) -> Result<(), Fail> {
    let equal = equal_rows(rt.alloc())?;
    let mut list = Vec::new(rt.alloc());
    equal.append_to(&mut list)?;
    assert_eq!(rt; list.len(), 1000);
    let merged = merged_rows::<TallyMachine>(rt.alloc(), &equal)?;
    let mut list = Vec::new(rt.alloc());
    merged.append_to(&mut list)?;
    assert_eq!(rt; list.len(), 1);
    let other = merged_rows::<TallyMachine>(rt.alloc(), &three_rows(rt.alloc())?)?;
    other.append_to(&mut list)?;
    assert_eq!(rt; list.len(), 3);
    Ok(())
}

#[test]
fn carries_and_compares(rt: HostRuntime) -> Result<(), Fail> {
    let old = TallyMachine { add: 3 };
    let new = TallyMachine { add: 4 };
    assert_eq!(rt; new.carry(rt.alloc(), &old, &(), &12)?, 12);
    assert_eq!(rt; new.share(rt.alloc(), &12)?, 12);
    assert_eq!(rt; (new.same(&12, &12), new.same(&12, &13)), (true, false));
    Ok(())
}

fn crossed<T: Send + Sync>(value: T) -> T {
    value
}

/// Rows and machines may go to another thread and be read there.
#[test]
fn cross_threads(rt: HostRuntime) -> Result<(), Fail> {
    let rows = crossed(three_rows(rt.alloc())?);
    let machine = crossed(TallyMachine { add: 3 });
    assert_eq!(rt; (rows.end(), machine.add), (3, 3));
    Ok(())
}
