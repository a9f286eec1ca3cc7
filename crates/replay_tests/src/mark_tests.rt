// The marks that entries make, with their links and registers worked out by hand.
use crate::given::{Given, marks, right};
use crate::histories::{
    FIVE, SESSION, WORKER, claim, first, given, install, open, opened, reload, reloaded, run,
    settled, show, stale, with,
};
use book_history::entry::Entry;
use book_history::link::Link;
use ls_text::NoMemory;
use std::alloc::Global;
use std::process::Abort;
use std::test::Fail;

const OPEN: Link = Link::Open;

const JOINED: Link = Link::Joined;

// Whether these entries make these marks behind the first one, which is at cycle 0 with 0.
fn make(
    rt: &impl Abort,
    alloc: Global,
    given: &Given,
    entries: &[Entry],
    wanted: &[(u64, Link, u128)],
) -> Result<bool, Fail> {
    let made = marks(rt, alloc, given, entries)?;
    let mut all = vec![in alloc; (0, JOINED, 0)]?;
    all.extend_from_slice(wanted)?;
    Ok(made.as_slice() == all.as_slice())
}

// Behind so many entries of `settled`, by steps of 3 and then of 4.
#[test]
fn marks_of_installs(rt: HostRuntime) -> Result<(), Fail> {
    let alloc = rt.alloc();
    let loads = &[opened(3), reloaded(2, 4)];
    let table: &[(usize, &[(u64, Link, u128)])] = &[
        (1, &[]),
        (2, &[(2, JOINED, 6), (4, JOINED, 12), (5, JOINED, 15)]),
        (3, &[(2, OPEN, 6), (4, OPEN, 12), (5, JOINED, 16)]),
        (5, &[(2, Link::Out(1), 6), (4, OPEN, 12), (5, JOINED, 16)]),
        (6, &[(2, JOINED, 8), (4, OPEN, 12), (5, JOINED, 16)]),
        (7, &[(2, JOINED, 8), (4, Link::Out(2), 12), (5, JOINED, 16)]),
        (9, &[(2, JOINED, 8), (4, JOINED, 16), (5, OPEN, 16)]),
        (
            10,
            &[(2, JOINED, 8), (4, JOINED, 16), (5, Link::Out(3), 16)],
        ),
        (13, &[(2, JOINED, 8), (4, JOINED, 16), (5, JOINED, 20)]),
    ];
    for (count, wanted) in table {
        let entries = first(alloc, &settled(alloc)?, *count)?;
        assert!(rt; make(&rt, alloc, &given(alloc, 2, loads, FIVE)?, &entries, wanted)?);
    }
    Ok(())
}

// Behind so many entries of `stale`, by steps of 3, 4 and then 5.
#[test]
fn marks_of_stale_results(rt: HostRuntime) -> Result<(), Fail> {
    let alloc = rt.alloc();
    let loads = &[opened(3), reloaded(2, 4), reloaded(3, 5)];
    let table: &[(usize, &[(u64, Link, u128)])] = &[
        (4, &[(2, Link::Out(1), 6), (4, OPEN, 12), (5, JOINED, 16)]),
        (5, &[(2, OPEN, 6), (4, OPEN, 12), (5, JOINED, 17)]),
        (6, &[(2, OPEN, 6), (4, OPEN, 12), (5, JOINED, 17)]),
        (
            8,
            &[(2, Link::Out(2), 6), (4, Link::Out(3), 12), (5, JOINED, 17)],
        ),
        (9, &[(2, JOINED, 10), (4, OPEN, 12), (5, JOINED, 17)]),
        (10, &[(2, JOINED, 10), (4, OPEN, 12), (5, JOINED, 17)]),
        (
            11,
            &[(2, JOINED, 10), (4, Link::Out(4), 12), (5, JOINED, 17)],
        ),
        (12, &[(2, JOINED, 10), (4, OPEN, 12), (5, JOINED, 17)]),
        (14, &[(2, JOINED, 10), (4, JOINED, 20), (5, OPEN, 17)]),
        (18, &[(2, JOINED, 10), (4, JOINED, 20), (5, JOINED, 25)]),
    ];
    for (count, wanted) in table {
        let entries = first(alloc, &stale(alloc)?, *count)?;
        assert!(rt; make(&rt, alloc, &given(alloc, 2, loads, FIVE)?, &entries, wanted)?);
    }
    Ok(())
}

// Behind a run of five cycles and a reload with this lookback, which chooses this cycle: steps of 3 up to there, and of 4 from there on.
#[test]
fn marks_of_reloads(rt: HostRuntime) -> Result<(), Fail> {
    let alloc = rt.alloc();
    let loads = &[opened(3), reloaded(2, 4)];
    let table: &[(u64, u64, &[(u64, Link, u128)])] = &[
        (0, 5, &[(2, OPEN, 6), (4, OPEN, 12), (5, OPEN, 15)]),
        (1, 4, &[(2, OPEN, 6), (4, OPEN, 12), (5, JOINED, 16)]),
        (2, 2, &[(2, OPEN, 6), (4, JOINED, 14), (5, JOINED, 18)]),
        (3, 2, &[(2, OPEN, 6), (4, JOINED, 14), (5, JOINED, 18)]),
        (4, 0, &[(2, JOINED, 8), (4, JOINED, 16), (5, JOINED, 20)]),
        (9, 0, &[(2, JOINED, 8), (4, JOINED, 16), (5, JOINED, 20)]),
    ];
    for (lookback, from, wanted) in table {
        let mut given = given(alloc, 2, loads, FIVE)?;
        given.settings.lookback = *lookback;
        assert!(rt;
            make(
                &rt,
                alloc,
                &given,
                &[open(), run(5), reload(2, *from)],
                wanted
            )?
        );
    }
    Ok(())
}

// Behind two runs, of five cycles and of three.
#[test]
fn marks_of_runs(rt: HostRuntime) -> Result<(), Fail> {
    let alloc = rt.alloc();
    let loads = &[opened(3)];
    let table: &[(u64, &[(u64, Link, u128)])] = &[
        (
            2,
            &[
                (2, JOINED, 6),
                (4, JOINED, 12),
                (5, JOINED, 15),
                (6, JOINED, 18),
                (8, JOINED, 24),
            ],
        ),
        (
            3,
            &[
                (3, JOINED, 9),
                (5, JOINED, 15),
                (6, JOINED, 18),
                (8, JOINED, 24),
            ],
        ),
        (9, &[(5, JOINED, 15), (8, JOINED, 24)]),
    ];
    for (interval, wanted) in table {
        let given = given(alloc, *interval, loads, &[(8, 0, 0)])?;
        assert!(rt; make(&rt, alloc, &given, &[open(), run(5), run(3)], wanted)?);
    }
    Ok(())
}

// The first link is joined with 4, the second is open; the reload has carried 3 n to mark n up to 1,021 with open links, and simulated two more with joined
// ones. One cycle more makes 1,025 marks, of which every other one goes.
fn half_joined(alloc: Global) -> Result<Vec<Entry>, NoMemory> {
    Ok(vec![in alloc;
        open(),
        run(1023),
        reload(2, 1021),
        claim(1, 0, 1, SESSION),
        install(1, true, SESSION),
        show(Some(1)),
        run(1),
        show(Some(0)),
    ]?)
}

// So many entries, how many marks they make, and the mark at a place: a joined and an open link make an open one, whichever comes first. 3,063 is 11 * 256 +
// 247.
#[test]
fn marks_thinned(rt: HostRuntime) -> Result<(), Fail> {
    let alloc = rt.alloc();
    let loads = &[opened(3), reloaded(2, 4)];
    let mut given = given(alloc, 1, loads, &[(1024, 0, 0)])?;
    given.settings.lookback = 2;
    assert!(rt; right(&rt, alloc, &given, &half_joined(alloc)?)?);
    let table: &[(usize, usize, usize, (u64, Link, u128))] = &[
        (6, 1024, 1, (1, JOINED, 4)),
        (6, 1024, 2, (2, OPEN, 6)),
        (6, 1024, 1021, (1021, OPEN, 247)),
        (6, 1024, 1022, (1022, JOINED, 251)),
        (6, 1024, 1023, (1023, JOINED, 255)),
        (7, 513, 0, (0, JOINED, 0)),
        (7, 513, 1, (2, OPEN, 6)),
        (7, 513, 2, (4, OPEN, 12)),
        (7, 513, 510, (1020, OPEN, 244)),
        (7, 513, 511, (1022, OPEN, 251)),
        (7, 513, 512, (1024, JOINED, 3)),
    ];
    for (count, length, at, wanted) in table {
        let entries = first(alloc, &half_joined(alloc)?, *count)?;
        let made = marks(&rt, alloc, &given, &entries)?;
        assert_eq!(rt; made.len(), *length);
        assert!(rt; made.get(*at) == Some(wanted));
    }
    Ok(())
}

// Both links that thinning puts together were out. All registers stay 0, so that only the two cycles tell that none of the two tickets has a link.
#[test]
fn links_thinned_away(rt: HostRuntime) -> Result<(), Fail> {
    let alloc = rt.alloc();
    let loads = &[opened(0), reloaded(2, 0)];
    let entries = &[
        open(),
        run(1023),
        reload(2, 1022),
        claim(1, 0, 1, WORKER),
        claim(2, 1, 2, WORKER),
        run(1),
        install(2, false, WORKER),
        install(1, false, WORKER),
    ];
    let given = given(alloc, 1, loads, &[(1024, 0, 0)])?;
    assert!(rt; right(&rt, alloc, &given, entries)?);
    for (at, ticket) in [(6, 2), (7, 1)] {
        let other = with(alloc, entries, at, install(ticket, true, WORKER))?;
        assert!(rt; !right(&rt, alloc, &given, &other)?);
    }
    Ok(())
}
