// Versions that read another input, and registers that are renamed or created, worked out by hand.
use crate::adders::Adder;
use crate::coming::Coming;
use crate::given::{Given, marks, right};
use crate::histories::{
    D, FIVE, OTHER_D, Q, SESSION, WORKER, claim, first, given, install, open, opened, reload, run,
    show, with,
};
use book_history::entry::Entry;
use book_history::link::Link;
use ls_text::{NameId, NoMemory};
use reg_ops::RegOp;
use std::alloc::Global;
use std::process::Abort;
use std::test::Fail;

const OPEN: Link = Link::Open;

const JOINED: Link = Link::Joined;

// The number of the name of another register.
const OTHER_REGISTER: u64 = 11;

// The second version, which adds 3 as the first one does, with these names.
fn second(register: u64, input: u64) -> Coming {
    Coming {
        is_open: false,
        number: 2,
        adder: Adder {
            register,
            input,
            add: 3,
        },
    }
}

// The second ticket is drawn before the first one's result comes, and isn't current then, since that result is another one than the mark's state.
fn changed_under_a_ticket(alloc: Global) -> Result<Vec<Entry>, NoMemory> {
    Ok(vec![in alloc;
        open(),
        run(5),
        reload(2, 4),
        claim(1, 0, 2, SESSION),
        claim(2, 2, 4, WORKER),
        install(1, true, SESSION),
        install(2, false, WORKER),
        claim(3, 2, 4, WORKER),
        install(3, true, WORKER),
        show(Some(4)),
        claim(4, 4, 5, SESSION),
        install(4, true, SESSION),
        show(None),
        Entry::Close,
    ]?)
}

// The second version reads another input. Where rows set what one version alone reads in the first two cycles, all entries are right; where they don't,
// the first result is that of the mark, and the second ticket is current.
#[test]
fn rows_that_set_inputs(rt: HostRuntime) -> Result<(), Fail> {
    let alloc = rt.alloc();
    let loads = &[opened(3), second(Q, OTHER_D)];
    let table: &[(&[(u64, u128, u128)], bool)] = &[
        (&[(2, 0, 1), (3, 0, 0)], true),
        (&[(1, 0, 0), (1, 0, 1), (3, 0, 0)], true),
        (&[(2, 1, 0), (3, 0, 0)], true),
        (&[(2, 1, 1), (3, 0, 0)], false),
        (&[(2, 0, 0), (2, 0, 1), (1, 0, 0)], false),
        (FIVE, false),
    ];
    for (rows, wanted) in table {
        let given = given(alloc, 2, loads, rows)?;
        let entries = changed_under_a_ticket(alloc)?;
        assert_eq!(rt; right(&rt, alloc, &given, &entries)?, *wanted);
    }
    Ok(())
}

// The other input is 1 in the first two cycles: the first result is 8 in place of 6, the third 14 in place of 12, the fourth 17.
#[test]
fn marks_under_inputs(rt: HostRuntime) -> Result<(), Fail> {
    let alloc = rt.alloc();
    let loads = &[opened(3), second(Q, OTHER_D)];
    let rows: &[(u64, u128, u128)] = &[(2, 0, 1), (3, 0, 0)];
    let given = given(alloc, 2, loads, rows)?;
    let table: &[(
        usize,
        (u64, Link, u128),
        (u64, Link, u128),
        (u64, Link, u128),
    )] = &[
        (3, (2, OPEN, 6), (4, OPEN, 12), (5, JOINED, 15)),
        (7, (2, JOINED, 8), (4, OPEN, 12), (5, JOINED, 15)),
        (9, (2, JOINED, 8), (4, JOINED, 14), (5, OPEN, 15)),
        (14, (2, JOINED, 8), (4, JOINED, 14), (5, JOINED, 17)),
    ];
    for (count, second, third, fourth) in table {
        let entries = first(alloc, &changed_under_a_ticket(alloc)?, *count)?;
        let made = marks(&rt, alloc, &given, &entries)?;
        let wanted = &[(0, JOINED, 0), *second, *third, *fourth];
        assert!(rt; made.as_slice() == wanted.as_slice());
    }
    Ok(())
}

// With another entry in place of one.
#[test]
fn wrong_under_inputs(rt: HostRuntime) -> Result<(), Fail> {
    let alloc = rt.alloc();
    let loads = &[opened(3), second(Q, OTHER_D)];
    let rows: &[(u64, u128, u128)] = &[(2, 0, 1), (3, 0, 0)];
    let given = given(alloc, 2, loads, rows)?;
    let table: &[(usize, Entry)] = &[
        (3, claim(1, 0, 4, SESSION)),
        (4, claim(2, 2, 5, WORKER)),
        (5, install(1, false, SESSION)),
        (6, install(2, true, WORKER)),
        (7, claim(3, 0, 4, WORKER)),
        (8, install(3, false, WORKER)),
        (9, show(None)),
        (10, claim(4, 2, 5, SESSION)),
        (11, install(4, false, SESSION)),
        (12, show(Some(4))),
    ];
    for (at, entry) in table {
        let entries = with(alloc, &changed_under_a_ticket(alloc)?, *at, *entry)?;
        assert!(rt; !right(&rt, alloc, &given, &entries)?);
    }
    Ok(())
}

// Two tickets behind a reload: whether the second one's result joins, and what is settled then.
fn operated(alloc: Global, joined: bool, settled: Option<u64>) -> Result<Vec<Entry>, NoMemory> {
    Ok(vec![in alloc;
        open(),
        run(5),
        reload(2, 4),
        claim(1, 0, 2, SESSION),
        claim(2, 2, 4, WORKER),
        install(1, true, SESSION),
        install(2, joined, WORKER),
        show(settled),
    ]?)
}

// Whether just these answers are right, and neither another one nor claims with other bounds.
fn answers(
    rt: &impl Abort,
    alloc: Global,
    given: &Given,
    joined: bool,
    settled: Option<u64>,
) -> Result<bool, Fail> {
    let entries = operated(alloc, joined, settled)?;
    let others: &[(usize, Entry)] = &[
        (3, claim(1, 0, 4, SESSION)),
        (4, claim(2, 2, 5, WORKER)),
        (5, install(1, false, SESSION)),
        (6, install(2, !joined, WORKER)),
    ];
    for (at, entry) in others {
        let other = with(alloc, &entries, *at, *entry)?;
        if right(rt, alloc, given, &other)? {
            return Ok(false);
        }
    }
    for told in [None, Some(2), Some(4)] {
        let other = operated(alloc, joined, told)?;
        if right(rt, alloc, given, &other)? != (told == settled) {
            return Ok(false);
        }
    }
    right(rt, alloc, given, &entries)
}

// The second version has a register of another name in place of the first one's. It goes on from it, begins at 6, or begins at 0: the marks at 2 and 4
// behind the reload and the one at 5, of 3 more. The results are 6 and 12: the first one leaves the mark as it is where that has 6.
#[test]
fn operations_that_take_effect(rt: HostRuntime) -> Result<(), Fail> {
    let alloc = rt.alloc();
    let in_module = NameId(0);
    let loads = &[opened(3), second(OTHER_REGISTER, D)];
    let renamed = RegOp::Rename {
        in_module,
        from: NameId(Q),
        to: NameId(OTHER_REGISTER),
    };
    let created = RegOp::Create {
        in_module,
        reg: NameId(OTHER_REGISTER),
        value: 6,
    };
    let table: &[(&[RegOp], (u128, u128, u128), bool, Option<u64>)] = &[
        (&[renamed], (6, 12, 15), true, None),
        (&[created], (6, 6, 9), true, Some(4)),
        (&[], (0, 0, 3), false, Some(2)),
    ];
    for (ops, registers, joined, settled) in table {
        let mut given = given(alloc, 2, loads, FIVE)?;
        given.ops = Vec::from_slice(alloc, ops)?;
        let made = marks(&rt, alloc, &given, &[open(), run(5), reload(2, 4)])?;
        let wanted = &[
            (0, JOINED, 0),
            (2, OPEN, registers.0),
            (4, OPEN, registers.1),
            (5, JOINED, registers.2),
        ];
        assert!(rt; made.as_slice() == wanted.as_slice());
        assert!(rt; answers(&rt, alloc, &given, *joined, *settled)?);
    }
    Ok(())
}
