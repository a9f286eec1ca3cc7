// What the session does about its own tickets. The assertions are the same whatever the schedule.
use crate::counting::{claims, drew, tickets};
use crate::held::Held;
use crate::outcome::right;
use crate::passing_gate::PassingGate;
use crate::running::{ran, ran_before, ran_held};
use crate::scripts::{DISPLAY, EDIT, EDIT_LINES, OPEN, OPEN_LINES, RUN, RUN_LINES, joined};
use book_history::who::Who;
use ls_port::GateStep;
use std::alloc::Global;
use std::process::Abort;
use std::sync::Wait;
use std::test::Fail;
use std::thread::Threads;
use test_gates::{HoldingGate, NotingGate};

/// The lines of the short script that is settled.
const SETTLED_LINES: [&[u8]; 5] = [
    OPEN_LINES,
    RUN_LINES,
    EDIT_LINES,
    b"settled cycle=5 v=2\n",
    DISPLAY,
];

/// Each ticket of the settled script comes to the gate twice, in order: how many there are, and how many are the session's.
fn note<R: Threads + Wait + Sync + Abort>(
    rt: &R,
    alloc: Global,
    given: &str,
) -> Result<(usize, usize), Fail> {
    let gate = NotingGate::new();
    let script = joined(alloc, &[OPEN, RUN, EDIT, b"settle\nshow\n"])?;
    let ran = ran(rt, alloc, given, script, &gate)?;
    right(rt, alloc, &ran, 0, &SETTLED_LINES, &[0, 1])?;
    let count = tickets(&ran.entries);
    for number in 0..count {
        assert!(rt; gate.noted(number as u64 + 1));
    }
    assert!(rt; !gate.mixed_up());
    Ok((count, claims(&ran.entries, Who::Session)))
}

// Without workers the session draws a ticket for each of the three links.
#[test]
fn the_gate_is_asked_before_each_step_of_the_session(rt: HostRuntime) -> Result<(), Fail> {
    assert_eq!(rt; note(&rt, rt.alloc(), "--workers 0")?, (3, 3));
    Ok(())
}

#[test]
fn the_gate_is_asked_before_each_step_beside_two_workers(rt: HostRuntime) -> Result<(), Fail> {
    let (count, _) = note(&rt, rt.alloc(), "--workers 2")?;
    assert!(rt; count > 2);
    Ok(())
}

// Two workers hold the two open links until the settle is answered, so the session verifies all three links itself.
#[test]
fn a_settle_waits_for_no_worker(rt: HostRuntime) -> Result<(), Fail> {
    let alloc = rt.alloc();
    let gate = HoldingGate::new(2);
    let then = Held {
        script: b"settle\nshow\n",
        at: b"settled",
        read: 9,
        write: 9,
    };
    let script = joined(alloc, &[OPEN, RUN, EDIT])?;
    let ran = ran_held(&rt, alloc, "--workers 2", script, &then, &gate)?;
    let replay = right(&rt, alloc, &ran, 0, &SETTLED_LINES, &[0, 1])?;
    assert!(rt; gate.has_let_go());
    assert_eq!(rt;
        (tickets(&ran.entries), claims(&ran.entries, Who::Session)),
        (5, 3)
    );
    assert_eq!(rt; (replay.settled_to(), replay.acc()), (None, 20));
    Ok(())
}

/// A worker holds ticket 1 until the session asks the gate before this step of ticket 2, and the session waits there until the worker has handed in the one
/// and drawn ticket 3: so the book is open to others as the session asks. Nine cycles of four each come to 36.
fn ask<R: Threads + Wait + Sync + Abort>(
    rt: &R,
    alloc: Global,
    step: GateStep,
) -> Result<(), Fail> {
    let holding = HoldingGate::new(1);
    let gate = PassingGate {
        holding: &holding,
        ticket: 2,
        step,
    };
    let then = Held {
        script: b"settle\nshow\n",
        at: b"ok quit",
        read: 9,
        write: 9,
    };
    let script = joined(alloc, &[OPEN, b"run 9\n", EDIT])?;
    let ran = ran_before(rt, alloc, "--workers 1", script, &then, &holding, &gate)?;
    let lines: [&[u8]; 5] = [
        OPEN_LINES,
        b"ok run cycle=9\n",
        b"ok edit v=2 built=1 kept=0 from=8\n",
        b"settled cycle=9 v=2\n",
        b"show cycle=9 settled v=2\ntop.acc 24\n",
    ];
    right(rt, alloc, &ran, 0, &lines, &[0, 1])?;
    assert!(rt; holding.has_let_go());
    assert!(rt; drew(&ran.entries, 1, Who::Worker(0)));
    assert!(rt; drew(&ran.entries, 2, Who::Session));
    assert!(rt; drew(&ran.entries, 3, Who::Worker(0)));
    Ok(())
}

#[test]
fn others_have_the_book_as_the_session_asks_before_it_verifies(
    rt: HostRuntime,
) -> Result<(), Fail> {
    ask(&rt, rt.alloc(), GateStep::Verify)
}

#[test]
fn others_have_the_book_as_the_session_asks_before_it_installs(
    rt: HostRuntime,
) -> Result<(), Fail> {
    ask(&rt, rt.alloc(), GateStep::Install)
}
