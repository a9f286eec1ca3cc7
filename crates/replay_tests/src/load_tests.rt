// Versions and rows beside the entries that take them, each with whether that is right.
use crate::coming::Coming;
use crate::given::right;
use crate::histories::{FIVE, given, open, opened, reload, reloaded, run, show};
use book_history::entry::Entry;
use ls_text::NameId;
use reg_ops::RegOp;
use std::test::Fail;

// An open's load, with this number.
fn other_open(number: u64) -> Coming {
    let mut coming = opened(3);
    coming.number = number;
    coming
}

// One open, with version 1 and the load of that number.
#[test]
fn opens(rt: HostRuntime) -> Result<(), Fail> {
    let alloc = rt.alloc();
    let table: &[(&[Coming], &[Entry], bool)] = &[
        (&[opened(3)], &[open()], true),
        (&[opened(3), opened(3)], &[open(), open()], false),
        (&[other_open(2)], &[open()], false),
        (&[other_open(2)], &[Entry::Open { version: 2 }], false),
        (&[opened(3)], &[Entry::Open { version: 2 }], false),
        (&[reloaded(1, 3)], &[open()], false),
        (&[], &[open()], false),
        (&[], &[Entry::Close], true),
        (&[], &[show(None)], false),
        (&[reloaded(1, 3)], &[reload(1, 0)], false),
    ];
    for (loads, entries, wanted) in table {
        let given = given(alloc, 2, loads, &[])?;
        assert_eq!(rt; right(&rt, alloc, &given, entries)?, *wanted);
    }
    Ok(())
}

// Each reload behind the open and a run has the next number, and the load of that number.
#[test]
fn reloads(rt: HostRuntime) -> Result<(), Fail> {
    let alloc = rt.alloc();
    let one = opened(3);
    let two = reloaded(2, 4);
    let three = reloaded(3, 5);
    let table: &[(&[Coming], &[Entry], bool)] = &[
        (&[one, two], &[open(), run(5), reload(2, 4)], true),
        (&[one, three], &[open(), run(5), reload(2, 4)], false),
        (&[one, three], &[open(), run(5), reload(3, 4)], false),
        (&[one, two], &[open(), run(5), reload(3, 4)], false),
        (
            &[one, other_open(2)],
            &[open(), run(5), reload(2, 4)],
            false,
        ),
        (&[one], &[open(), run(5), reload(2, 4)], false),
        (
            &[one, two, three],
            &[open(), run(5), reload(2, 4), reload(3, 4)],
            true,
        ),
        (
            &[one, two, two],
            &[open(), run(5), reload(2, 4), reload(2, 4)],
            false,
        ),
        (
            &[one, two, reloaded(4, 5)],
            &[open(), run(5), reload(2, 4), reload(3, 4)],
            false,
        ),
    ];
    for (loads, entries, wanted) in table {
        let given = given(alloc, 2, loads, FIVE)?;
        assert_eq!(rt; right(&rt, alloc, &given, entries)?, *wanted);
    }
    Ok(())
}

// A reload at cycle 0, where nothing is carried over, by operations that hold and by ones that don't.
#[test]
fn reloads_at_the_beginning(rt: HostRuntime) -> Result<(), Fail> {
    let alloc = rt.alloc();
    let loads = &[opened(3), reloaded(2, 4)];
    let delete = &[RegOp::Delete {
        in_module: NameId(0),
        reg: NameId(99),
    }];
    let mut given = given(alloc, 2, loads, &[])?;
    assert!(rt; right(&rt, alloc, &given, &[open(), reload(2, 0)])?);
    given.ops = Vec::from_slice(alloc, delete)?;
    assert!(rt; !right(&rt, alloc, &given, &[open(), reload(2, 0)])?);
    Ok(())
}

// So many rows, of which the runs take all.
#[test]
fn rows_and_loads_left(rt: HostRuntime) -> Result<(), Fail> {
    let alloc = rt.alloc();
    let one = opened(3);
    let two = reloaded(2, 4);
    let none: &[(u64, u128, u128)] = &[];
    let six: &[(u64, u128, u128)] = &[(6, 0, 0)];
    let table: &[(&[Coming], &[(u64, u128, u128)], &[Entry], bool)] = &[
        (&[one], FIVE, &[open(), run(5)], true),
        (&[one], FIVE, &[open(), run(3), run(2)], true),
        (&[one], six, &[open(), run(5)], false),
        (&[one], six, &[open(), run(3), run(2)], false),
        (&[one], six, &[open(), run(3), run(2), run(1)], true),
        (&[one], FIVE, &[open(), run(5), run(1)], false),
        (&[one], FIVE, &[open()], false),
        (&[one], none, &[open()], true),
        (&[one], none, &[open(), run(0)], false),
        (&[one, two], FIVE, &[open(), run(5)], false),
        (&[one, two], FIVE, &[open(), run(5), reload(2, 4)], true),
        (&[one, two], six, &[open(), run(5), reload(2, 4)], false),
        (&[], none, &[], true),
        (&[one], none, &[], false),
        (&[], FIVE, &[], false),
    ];
    for (loads, rows, entries, wanted) in table {
        let given = given(alloc, 2, loads, rows)?;
        assert_eq!(rt; right(&rt, alloc, &given, entries)?, *wanted);
    }
    Ok(())
}
