// Workers at work as a run ends. The assertions are the same whatever the schedule.
use crate::counting::{claims, tickets};
use crate::held::Held;
use crate::outcome::right;
use crate::running::ran_held;
use crate::scripts::{EDIT, EDIT_LINES, OPEN, OPEN_LINES, RUN, RUN_LINES, joined};
use book_history::who::Who;
use std::alloc::Global;
use std::process::Abort;
use std::sync::Wait;
use std::test::Fail;
use std::thread::Threads;
use test_gates::HoldingGate;

/// Two workers hold a ticket each as the run's last call outside is made, and within it another one is drawn. The run ends so, with these lines
/// behind the short script's, and all that the workers drew is used up then.
fn end<R: Threads + Wait + Sync + Abort>(
    rt: &R,
    alloc: Global,
    then: &Held<'_>,
    status: u8,
    lines: &[u8],
) -> Result<(), Fail> {
    let gate = HoldingGate::new(2);
    let script = joined(alloc, &[OPEN, RUN, EDIT])?;
    let ran = ran_held(rt, alloc, "--workers 2", script, then, &gate)?;
    let lines: [&[u8]; 4] = [OPEN_LINES, RUN_LINES, EDIT_LINES, lines];
    right(rt, alloc, &ran, status, &lines, &[0, 1])?;
    assert!(rt; gate.has_let_go());
    assert_eq!(rt; claims(&ran.entries, Who::Session), 0);
    assert!(rt; tickets(&ran.entries) > 2);
    Ok(())
}

#[test]
fn workers_verify_at_quit(rt: HostRuntime) -> Result<(), Fail> {
    let then = Held {
        script: b"quit\n",
        at: b"ok quit",
        read: 9,
        write: 9,
    };
    end(&rt, rt.alloc(), &then, 0, b"ok quit\n")
}

#[test]
fn workers_verify_at_the_end_of_the_input(rt: HostRuntime) -> Result<(), Fail> {
    let then = Held {
        script: b"",
        at: b"ok quit",
        read: 9,
        write: 9,
    };
    end(&rt, rt.alloc(), &then, 0, b"")
}

#[test]
fn workers_verify_as_the_source_fails(rt: HostRuntime) -> Result<(), Fail> {
    let then = Held {
        script: b"",
        at: b"ok quit",
        read: 0,
        write: 9,
    };
    end(&rt, rt.alloc(), &then, 3, b"")
}

// The short script is answered by four writes.
#[test]
fn workers_verify_as_the_sink_fails(rt: HostRuntime) -> Result<(), Fail> {
    let then = Held {
        script: b"show\n",
        at: b"show",
        read: 9,
        write: 4,
    };
    end(&rt, rt.alloc(), &then, 4, b"")
}
