// Marks of which one may be wrong, worked out by hand.
use crate::adders::{Adder, design};
use crate::given::rows_of;
use crate::histories::{D, FIVE, Q};
use book_history::link::Link;
use book_history::version::Version;
use cycle_eval::Design;
use history_replay::mark::Mark;
use history_replay::states::{advanced, reset};
use history_replay::truth::are_true;
use ls_text::NoMemory;
use machine::row_runs::RowRuns;
use std::alloc::Global;
use std::process::Abort;
use std::sync::Arc;
use std::test::Fail;
use stimulus::Row;

// A mark at this cycle, with the state that so many cycles lead to; none where there are fewer rows.
fn mark(
    alloc: Global,
    version: &Arc<Version<Design>, Global>,
    rows: &RowRuns<Row>,
    cycle: u64,
    cycles: u64,
    link: Link,
) -> Result<Option<Mark>, NoMemory> {
    let start = reset(alloc, version)?;
    let Some(own) = advanced(alloc, rows, &start, 0, cycles)? else {
        return Ok(None);
    };
    Ok(Some(Mark {
        cycle,
        link,
        is_checked: false,
        own,
    }))
}

// Marks at 0, 2 and 4, of which the second and the third have the states that so many cycles lead to, with these links.
fn marks(
    rt: &impl Abort,
    alloc: Global,
    rows: &RowRuns<Row>,
    second: (u64, Link),
    third: (u64, Link),
) -> Result<Vec<Mark>, NoMemory> {
    let adder = Adder {
        register: Q,
        input: D,
        add: 3,
    };
    let machine = Arc::new(alloc, design(rt, alloc, adder)?)?;
    let version = Arc::new(alloc, Version { number: 1, machine })?;
    let mut marks = Vec::new(alloc);
    for (cycle, cycles, link) in [
        (0, 0, Link::Joined),
        (2, second.0, second.1),
        (4, third.0, third.1),
    ] {
        if let Some(mark) = mark(alloc, &version, rows, cycle, cycles, link)? {
            marks.push(mark)?;
        }
    }
    Ok(marks)
}

// Each cycle adds 3, so two lead from 0 to 6, from 3 to 9 and from 6 to 12, where n cycles lead to 3 n.
#[test]
fn joined_links(rt: HostRuntime) -> Result<(), Fail> {
    let alloc = rt.alloc();
    let rows = rows_of(&rt, alloc, FIVE)?;
    let table: &[((u64, Link), (u64, Link), bool)] = &[
        ((2, Link::Joined), (4, Link::Joined), true),
        ((1, Link::Joined), (4, Link::Joined), false),
        ((1, Link::Joined), (3, Link::Joined), false),
        ((2, Link::Joined), (3, Link::Joined), false),
        ((2, Link::Joined), (5, Link::Joined), false),
        ((1, Link::Open), (3, Link::Joined), true),
        ((1, Link::Out(1)), (3, Link::Joined), true),
        ((1, Link::Open), (4, Link::Joined), false),
        ((2, Link::Joined), (3, Link::Open), true),
        ((2, Link::Joined), (3, Link::Out(1)), true),
        ((1, Link::Joined), (3, Link::Open), false),
    ];
    for (second, third, wanted) in table {
        let mut marks = marks(&rt, alloc, &rows, *second, *third)?;
        assert_eq!(rt; marks.len(), 3);
        assert_eq!(rt; are_true(alloc, &mut marks, &rows)?, *wanted);
    }
    Ok(())
}

// A link that was found true isn't run again until it is said to have changed.
#[test]
fn checked_links(rt: HostRuntime) -> Result<(), Fail> {
    let alloc = rt.alloc();
    let rows = rows_of(&rt, alloc, FIVE)?;
    let mut marks = marks(&rt, alloc, &rows, (2, Link::Joined), (3, Link::Joined))?;
    for checked in [true, false] {
        if let Some(mark) = marks.last_mut() {
            mark.is_checked = checked;
        }
        assert_eq!(rt; are_true(alloc, &mut marks, &rows)?, checked);
    }
    Ok(())
}
