// Claims, their ends and closes behind a reload, each with whether it is right there.
use crate::given::right;
use crate::histories::{
    FIVE, OTHER, SESSION, WORKER, claim, given, install, open, opened, release, reload, reloaded,
    run,
};
use book_history::entry::Entry;
use book_history::who::Who;
use std::alloc::Global;
use std::process::Abort;
use std::test::Fail;

// Whether these entries are right behind an open, a run of five cycles and a reload, which leave marks at 2 and 4 with open links, and one at 5 with a
// joined one.
fn right_behind(rt: &impl Abort, alloc: Global, entries: &[Entry]) -> Result<bool, Fail> {
    let loads = &[opened(3), reloaded(2, 4)];
    let mut all = vec![in alloc; open(), run(5), reload(2, 4)]?;
    all.extend_from_slice(entries)?;
    right(rt, alloc, &given(alloc, 2, loads, FIVE)?, &all)
}

// The claims of the two open links.
fn low(ticket: u64, by: Who) -> Entry {
    claim(ticket, 0, 2, by)
}

fn high(ticket: u64, by: Who) -> Entry {
    claim(ticket, 2, 4, by)
}

#[test]
fn closes(rt: HostRuntime) -> Result<(), Fail> {
    let alloc = rt.alloc();
    let close = Entry::Close;
    let table: &[(&[Entry], bool)] = &[
        (&[close], true),
        (&[close, close], false),
        (&[low(1, WORKER), close], true),
        (&[close, low(1, WORKER)], false),
        (&[low(1, SESSION), close], true),
        (&[close, low(1, SESSION)], false),
        (&[low(1, WORKER), close, install(1, true, WORKER)], true),
        (&[low(1, WORKER), close, release(1, WORKER)], true),
    ];
    for (entries, wanted) in table {
        assert_eq!(rt; right_behind(&rt, alloc, entries)?, *wanted);
    }
    Ok(())
}

// A ticket is used up once, and by its drawer.
#[test]
fn ends(rt: HostRuntime) -> Result<(), Fail> {
    let alloc = rt.alloc();
    let drawn = low(1, WORKER);
    let own = low(1, SESSION);
    let freed = release(1, WORKER);
    let used = install(1, true, WORKER);
    let table: &[(&[Entry], bool)] = &[
        (&[drawn, freed], true),
        (&[drawn, release(1, OTHER)], false),
        (&[drawn, release(1, SESSION)], false),
        (&[own, release(1, SESSION)], true),
        (&[own, freed], false),
        (&[drawn, release(2, WORKER)], false),
        (&[drawn, release(0, WORKER)], false),
        (&[drawn, used], true),
        (&[drawn, install(1, true, OTHER)], false),
        (&[drawn, install(1, true, SESSION)], false),
        (&[drawn, install(2, true, WORKER)], false),
        (&[drawn, freed, freed], false),
        (&[drawn, used, freed], false),
        (&[drawn, freed, used], false),
        (&[drawn, used, used], false),
    ];
    for (entries, wanted) in table {
        assert_eq!(rt; right_behind(&rt, alloc, entries)?, *wanted);
    }
    Ok(())
}

// A worker takes the first open link alone, the session one that is out too; and a release opens the link of its ticket.
#[test]
fn claims(rt: HostRuntime) -> Result<(), Fail> {
    let alloc = rt.alloc();
    let own = low(1, SESSION);
    let one = low(1, WORKER);
    let two = high(2, OTHER);
    let one_freed = release(1, WORKER);
    let two_freed = release(2, OTHER);
    let table: &[(&[Entry], bool)] = &[
        (&[own, low(2, WORKER)], false),
        (&[own, high(2, WORKER)], true),
        (&[own, low(2, SESSION)], true),
        (&[own, high(2, SESSION)], false),
        (&[one, low(2, OTHER)], false),
        (&[one, two], true),
        (&[one, low(2, SESSION)], true),
        (&[one, high(2, SESSION)], false),
        (&[one, two, low(3, OTHER)], false),
        (&[one, two, claim(3, 4, 5, OTHER)], false),
        (&[one, two, low(3, SESSION)], true),
        (&[one, one_freed, low(2, OTHER)], true),
        (&[one, one_freed, high(2, OTHER)], false),
        (&[one, two, two_freed, high(3, WORKER)], true),
        (&[one, two, two_freed, low(3, WORKER)], false),
    ];
    for (entries, wanted) in table {
        assert_eq!(rt; right_behind(&rt, alloc, entries)?, *wanted);
    }
    Ok(())
}
