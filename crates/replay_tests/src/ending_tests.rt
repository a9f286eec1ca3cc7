// Entries of which it is worked out by hand whether they are over.
use crate::histories::{OTHER, SESSION, WORKER, claim, install, open, release, reload, run, show};
use book_history::entry::Entry;
use history_replay::ending::are_over;
use std::test::Fail;

// Each with the reason for which it isn't over.
#[test]
fn closes_at_the_end(rt: HostRuntime) -> Result<(), Fail> {
    let table: &[(&[Entry], bool)] = &[
        (&[open(), run(5), Entry::Close], true),
        (&[Entry::Close], true),
        // no close
        (&[], false),
        (&[open(), run(5)], false),
        // an entry of the session behind it
        (&[open(), Entry::Close, run(5)], false),
        (&[open(), Entry::Close, show(None)], false),
        (&[open(), run(5), Entry::Close, reload(2, 4)], false),
        (&[Entry::Close, open()], false),
    ];
    for (entries, wanted) in table {
        assert_eq!(rt; are_over(entries), *wanted);
    }
    Ok(())
}

#[test]
fn tickets_at_the_end(rt: HostRuntime) -> Result<(), Fail> {
    let first = claim(1, 0, 2, WORKER);
    let second = claim(2, 2, 4, OTHER);
    let own = claim(1, 0, 2, SESSION);
    let used = install(1, true, WORKER);
    let freed = release(1, WORKER);
    let close = Entry::Close;
    let table: &[(&[Entry], bool)] = &[
        (&[first, used, close], true),
        (&[first, close, used], true),
        (&[first, close, freed], true),
        (
            &[first, second, close, freed, install(2, false, OTHER)],
            true,
        ),
        (&[own, install(1, true, SESSION), close], true),
        (&[own, release(1, SESSION), close], true),
        // a ticket that is out
        (&[first, close], false),
        (&[own, close], false),
        (&[first, second, used, close], false),
        (&[first, second, close, release(2, OTHER)], false),
        (&[first, close, install(2, true, WORKER)], false),
        // one that is used up twice
        (&[first, used, close, freed], false),
        (&[first, close, used, used], false),
        (&[first, freed, freed, close], false),
        // an entry of the session's ticket, or a claim, behind the close
        (&[own, close, install(1, true, SESSION)], false),
        (&[own, close, release(1, SESSION)], false),
        (&[close, first, used], false),
    ];
    for (entries, wanted) in table {
        assert_eq!(rt; are_over(entries), *wanted);
    }
    Ok(())
}
