// How many workers there are. The assertions are the same whatever the schedule.
use crate::counting::{claims, tickets};
use crate::held::Held;
use crate::outcome::right;
use crate::running::ran_held;
use crate::scripts::{EDIT, OPEN, OPEN_LINES, joined};
use book_history::who::Who;
use std::alloc::Global;
use std::process::Abort;
use std::sync::Wait;
use std::test::Fail;
use std::thread::Threads;
use test_gates::HoldingGate;

/// So many tickets are held at once behind an edit with 69 open links, while the session only waits for input: so there are as many threads beside it.
/// Each worker's number has drawn one, and nobody else.
fn gather<R: Threads + Wait + Sync + Abort>(
    rt: &R,
    alloc: Global,
    given: &str,
    workers: u16,
) -> Result<(), Fail> {
    let gate = HoldingGate::new(u64::from(workers));
    let script = joined(alloc, &[OPEN, b"run 140\n", EDIT])?;
    let then = Held {
        script: b"",
        at: b"ok quit",
        read: 9,
        write: 9,
    };
    let ran = ran_held(rt, alloc, given, script, &then, &gate)?;
    let lines: [&[u8]; 3] = [
        OPEN_LINES,
        b"ok run cycle=140\n",
        b"ok edit v=2 built=1 kept=0 from=138\n",
    ];
    right(rt, alloc, &ran, 0, &lines, &[0, 1])?;
    assert!(rt; gate.has_let_go());
    let mut drawn = 0usize;
    for number in 0..workers {
        let count = claims(&ran.entries, Who::Worker(number));
        assert!(rt; count > 0);
        drawn = drawn.saturating_add(count);
    }
    assert_eq!(rt; drawn, tickets(&ran.entries));
    Ok(())
}

#[test]
fn one_worker_holds_a_ticket(rt: HostRuntime) -> Result<(), Fail> {
    gather(&rt, rt.alloc(), "--workers 1", 1)
}

#[test]
fn each_of_two_workers_holds_a_ticket(rt: HostRuntime) -> Result<(), Fail> {
    gather(&rt, rt.alloc(), "--workers 2", 2)
}

#[test]
fn each_of_eight_workers_holds_a_ticket(rt: HostRuntime) -> Result<(), Fail> {
    gather(&rt, rt.alloc(), "--workers 8", 8)
}

#[test]
fn each_of_sixty_four_workers_holds_a_ticket(rt: HostRuntime) -> Result<(), Fail> {
    gather(&rt, rt.alloc(), "--workers 64", 64)
}

#[test]
fn two_workers_hold_a_ticket_each_where_no_word_tells_how_many(
    rt: HostRuntime,
) -> Result<(), Fail> {
    gather(&rt, rt.alloc(), "", 2)
}
