// Rows and records worked out by hand.
use ls_text::{NameId, NoMemory};
use machine::row_runs::RowRuns;
use std::alloc::Global;
use std::process::Abort;
use std::sync::Arc;
use std::test::Fail;
use stimulus::{Record, RecordRefusal, Row};

// The row that sets these names to these values, one after another.
fn row(alloc: Global, list: &[(u64, u128)]) -> Result<Row, NoMemory> {
    let mut row = Row::new(alloc);
    for (name, value) in list {
        row.put(NameId(*name), *value)?;
    }
    Ok(row)
}

// Appends that row so many times.
fn add(
    rt: &impl Abort,
    alloc: Global,
    record: &mut Record,
    list: &[(u64, u128)],
    n: u64,
) -> Result<(), RecordRefusal> {
    assert!(rt; 1 <= n && n <= 1000);
    assert!(rt; record.len() <= 1000);
    record.append(Arc::new(alloc, row(alloc, list)?)?, n)
}

// The values that a name has in the rows of a record, one a cycle.
fn values(alloc: Global, record: &Record, name: u64) -> Result<Vec<u128>, NoMemory> {
    let mut values = Vec::new(alloc);
    for t in 0..record.len() {
        values.push(record.row_at(t).get(NameId(name)))?;
    }
    Ok(values)
}

// The same in shared rows.
fn shared_values(alloc: Global, rows: &RowRuns<Row>, name: u64) -> Result<Vec<u128>, NoMemory> {
    let mut values = Vec::new(alloc);
    for t in rows.start()..rows.end() {
        values.push(rows.row_at(t).get(NameId(name)))?;
    }
    Ok(values)
}

fn cut(rt: &impl Abort, record: &mut Record, len: u64) {
    assert!(rt; len <= record.len());
    record.cut(len);
}

fn part(
    rt: &impl Abort,
    alloc: Global,
    record: &Record,
    a: u64,
    b: u64,
) -> Result<RowRuns<Row>, NoMemory> {
    assert!(rt; a <= b && b <= record.len());
    record.slice(alloc, a, b)
}

/// Names that come in any order, one of them twice: the later value is kept, and each name counts once.
#[test]
fn values_by_names(rt: HostRuntime) -> Result<(), Fail> {
    let alloc = rt.alloc();
    let one = row(alloc, &[(7, 70), (3, 30), (9, 90), (3, 31), (5, 0)])?;
    assert_eq!(rt; one.count(), 4);
    for (name, value) in [
        (2, 0),
        (3, 31),
        (4, 0),
        (5, 0),
        (7, 70),
        (8, 0),
        (9, 90),
        (10, 0),
    ] {
        assert_eq!(rt; one.get(NameId(name)), value);
    }
    let other = one.with(alloc, NameId(4), u128::MAX)?;
    assert_eq!(rt;
        (other.get(NameId(4)), other.get(NameId(5)), other.count()),
        (u128::MAX, 0, 5)
    );
    assert_eq!(rt; one.get(NameId(4)), 0);
    Ok(())
}

/// Rows are the same by what is set, whatever the order; a name that is set to 0 is set.
#[test]
fn same_rows(rt: HostRuntime) -> Result<(), Fail> {
    let alloc = rt.alloc();
    let one = row(alloc, &[(1, 5), (2, 0)])?;
    assert!(rt; one.same(&row(alloc, &[(2, 9), (1, 5), (2, 0)])?));
    assert!(rt; one.same(&one.copy(alloc)?));
    assert!(rt; !one.same(&row(alloc, &[(1, 5)])?));
    assert!(rt; !one.same(&row(alloc, &[(1, 6), (2, 0)])?));
    assert!(rt; !one.same(&row(alloc, &[(1, 5), (3, 0)])?));
    Ok(())
}

/// At most three names: one in the first three rows, two in the next one; a fourth is refused. Equal rows take nothing more.
#[test]
fn names_by_runs(rt: HostRuntime) -> Result<(), Fail> {
    let alloc = rt.alloc();
    let mut record = Record::new(alloc, 3);
    add(&rt, alloc, &mut record, &[(1, 5)], 2)?;
    add(&rt, alloc, &mut record, &[(1, 5)], 1)?;
    add(&rt, alloc, &mut record, &[(1, 5), (2, 0)], 1)?;
    let refused = add(&rt, alloc, &mut record, &[(1, 6)], 1);
    assert!(rt; matches!(refused, Err(RecordRefusal::StimulusFull)));
    assert_eq!(rt; (record.len(), record.limit()), (4, 3));
    add(&rt, alloc, &mut record, &[(2, 0), (1, 5)], 2)?;
    add(&rt, alloc, &mut record, &[], 1)?;
    assert_eq!(rt;
        values(alloc, &record, 1)?.as_slice(),
        [5, 5, 5, 5, 5, 5, 0].as_slice()
    );
    Ok(())
}

/// A cut within a run keeps its names, and one before it gives them back.
#[test]
fn cuts_rows_off(rt: HostRuntime) -> Result<(), Fail> {
    let alloc = rt.alloc();
    let mut record = Record::new(alloc, 2);
    assert!(rt; record.is_empty());
    add(&rt, alloc, &mut record, &[(1, 5)], 3)?;
    add(&rt, alloc, &mut record, &[(1, 6)], 4)?;
    cut(&rt, &mut record, 5);
    assert_eq!(rt;
        values(alloc, &record, 1)?.as_slice(),
        [5, 5, 5, 6, 6].as_slice()
    );
    assert!(rt; add(&rt, alloc, &mut record, &[(1, 7)], 1).is_err());
    cut(&rt, &mut record, 3);
    add(&rt, alloc, &mut record, &[(1, 7)], 1)?;
    assert_eq!(rt;
        values(alloc, &record, 1)?.as_slice(),
        [5, 5, 5, 7].as_slice()
    );
    cut(&rt, &mut record, 0);
    assert!(rt; record.is_empty());
    add(&rt, alloc, &mut record, &[(1, 8), (2, 9)], 1)?;
    assert_eq!(rt; values(alloc, &record, 2)?.as_slice(), [9].as_slice());
    Ok(())
}

/// Parts of a record, from within a run into another one, and one without rows.
#[test]
fn parts_of_a_record(rt: HostRuntime) -> Result<(), Fail> {
    let alloc = rt.alloc();
    let mut record = Record::new(alloc, 10);
    add(&rt, alloc, &mut record, &[(1, 5)], 3)?;
    add(&rt, alloc, &mut record, &[(1, 6)], 1)?;
    add(&rt, alloc, &mut record, &[(1, 7)], 2)?;
    let rows = part(&rt, alloc, &record, 2, 5)?;
    assert_eq!(rt; (rows.start(), rows.end()), (2, 5));
    assert_eq!(rt;
        shared_values(alloc, &rows, 1)?.as_slice(),
        [5, 6, 7].as_slice()
    );
    let none = part(&rt, alloc, &record, 6, 6)?;
    assert_eq!(rt; (none.start(), none.end()), (6, 6));
    Ok(())
}

fn crossed<T: Send + Sync>(value: T) -> T {
    value
}

/// Rows and records may go to another thread and be read there.
#[test]
fn cross_threads(rt: HostRuntime) -> Result<(), Fail> {
    let alloc = rt.alloc();
    let row = crossed(row(alloc, &[(1, 5)])?);
    let record = crossed(Record::new(alloc, 1));
    assert_eq!(rt; (row.get(NameId(1)), record.len()), (5, 0));
    Ok(())
}
