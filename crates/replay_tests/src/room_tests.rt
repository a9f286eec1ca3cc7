// Entries in rooms that they just fit, and in rooms with one place less.
use crate::coming::Coming;
use crate::given::right;
use crate::histories::{
    FIVE, SESSION, claim, first, given, open, opened, release, reload, reloaded, run, settled,
    stale,
};
use book_history::entry::Entry;
use book_history::rooms::Rooms;
use std::alloc::Global;
use std::process::Abort;
use std::test::Fail;

// Whether these entries are right in rooms of these sizes.
fn fit(
    rt: &impl Abort,
    alloc: Global,
    loads: &[Coming],
    entries: &[Entry],
    session: u32,
    workers: u32,
) -> Result<bool, Fail> {
    let mut given = given(alloc, 2, loads, FIVE)?;
    given.settings.rooms = Rooms { session, workers };
    right(rt, alloc, &given, entries)
}

// Whether they are right in these rooms, and wrong where the session's or the workers' has one place less.
fn just_fit(
    rt: &impl Abort,
    alloc: Global,
    loads: &[Coming],
    entries: &[Entry],
    session: u32,
    workers: u32,
) -> Result<bool, Fail> {
    let fewer = session.saturating_sub(1);
    if fit(rt, alloc, loads, entries, fewer, workers)? {
        return Ok(false);
    }
    let fewer = workers.saturating_sub(1);
    if workers > 0 && fit(rt, alloc, loads, entries, session, fewer)? {
        return Ok(false);
    }
    fit(rt, alloc, loads, entries, session, workers)
}

// How many entries of `settled`, how many of them are the session's without a close, and those of workers: a claim and its install.
#[test]
fn rooms_of_the_session(rt: HostRuntime) -> Result<(), Fail> {
    let alloc = rt.alloc();
    let loads = &[opened(3), reloaded(2, 4)];
    let table: &[(usize, u32, u32)] = &[
        (3, 3, 0),
        (4, 4, 0),
        (5, 5, 0),
        (6, 6, 0),
        (7, 6, 2),
        (8, 6, 2),
        (9, 7, 2),
        (10, 8, 2),
        (11, 9, 2),
        (12, 10, 2),
        (13, 10, 2),
    ];
    for (count, session, workers) in table {
        let entries = first(alloc, &settled(alloc)?, *count)?;
        assert!(rt; just_fit(&rt, alloc, loads, &entries, *session, *workers)?);
    }
    let released = &[
        open(),
        run(5),
        reload(2, 4),
        claim(1, 0, 2, SESSION),
        release(1, SESSION),
    ];
    assert!(rt; just_fit(&rt, alloc, loads, released, 5, 0)?);
    Ok(())
}

// The same of `stale`, where workers' entries are their claims, their ends, and a place for the end of each ticket that is out: behind the third claim
// these are 3, 1 and 2.
#[test]
fn rooms_of_workers(rt: HostRuntime) -> Result<(), Fail> {
    let alloc = rt.alloc();
    let loads = &[opened(3), reloaded(2, 4), reloaded(3, 5)];
    let table: &[(usize, u32, u32)] = &[
        (5, 4, 2),
        (6, 4, 2),
        (7, 4, 4),
        (8, 4, 6),
        (9, 4, 6),
        (10, 4, 6),
        (11, 4, 8),
        (12, 4, 8),
        (13, 4, 10),
        (16, 5, 12),
        (18, 6, 12),
    ];
    for (count, session, workers) in table {
        let entries = first(alloc, &stale(alloc)?, *count)?;
        assert!(rt; just_fit(&rt, alloc, loads, &entries, *session, *workers)?);
    }
    Ok(())
}
