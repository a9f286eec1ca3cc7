// Edits beside workers. The assertions are the same whatever the schedule.
use crate::counting::{claims, tickets};
use crate::held::Held;
use crate::install_gate::InstallGate;
use crate::outcome::right;
use crate::ran::Ran;
use crate::replay::Replay;
use crate::running::{ran, ran_before, ran_held, replayed};
use crate::scripts::{
    AGAIN, AGAIN_LINES, EDIT, EDIT_LINES, OPEN, OPEN_LINES, RUN, RUN_LINES, joined, many_added,
    many_edits,
};
use book_history::who::Who;
use ls_port::{Gate, OpenGate};
use std::alloc::Global;
use std::process::Abort;
use std::sync::Wait;
use std::test::Fail;
use std::thread::Threads;
use test_gates::HoldingGate;

/// How many edits the longest script has.
const EDITS: u32 = 300;

/// The number of a read or a write that no run comes to.
const NEVER: u64 = 1000000;

/// A digit of a register.
fn digit(value: u8) -> u8 {
    let digit = value % 16;
    if digit < 10 {
        b'0' + digit
    } else {
        b'a' + (digit - 10)
    }
}

/// A run of the longest script ends with the settled display of the register that the plain replay has.
fn ends_right<R: Abort>(rt: &R, alloc: Global, ran: &Ran) -> Result<Replay, Fail> {
    let Some(replay) = replayed(alloc, ran, many_added(alloc, EDITS)?)? else {
        return Err("the history isn't right")?;
    };
    let acc = replay.acc();
    let register = [digit(acc / 16), digit(acc), b'\n'];
    let display = joined(
        alloc,
        &[
            b"settled cycle=65 v=301\nshow cycle=65 settled v=301\ntop.acc ",
            &register,
        ],
    )?;
    assert_eq!(rt; ran.status, 0);
    assert!(rt; ran.lines.ends_with(&display));
    assert_eq!(rt; (replay.settled_to(), replay.is_over()), (None, true));
    Ok(replay)
}

// Two workers hold tickets 1 and 2, of version 2, until half of the edits are answered, by when another has drawn ticket 3. No line depends on them.
#[test]
fn sixty_four_workers_beside_three_hundred_edits(rt: HostRuntime) -> Result<(), Fail> {
    let alloc = rt.alloc();
    let first = many_edits(alloc, 0, 1)?;
    let others = many_edits(alloc, 1, EDITS)?;
    let begin = joined(alloc, &[OPEN, RUN, &first])?;
    let more = joined(alloc, &[&others, b"settle\nshow\n"])?;
    let whole = joined(alloc, &[&begin, &more])?;
    let alone = ran(&rt, alloc, "--workers 0", whole, &OpenGate)?;
    let gate = HoldingGate::new(2);
    let then = Held {
        script: more.as_slice(),
        at: b"ok edit v=151 ",
        read: NEVER,
        write: NEVER,
    };
    let beside = ran_held(&rt, alloc, "--workers 64", begin, &then, &gate)?;
    assert!(rt; gate.has_let_go());
    ends_right(&rt, alloc, &alone)?;
    let replay = ends_right(&rt, alloc, &beside)?;
    assert!(rt; alone.lines.as_slice() == beside.lines.as_slice());
    assert!(rt; replay.older() >= 2);
    let of_session = claims(&beside.entries, Who::Session);
    assert!(rt; tickets(&beside.entries) >= of_session.saturating_add(3));
    Ok(())
}

/// Two workers hold tickets of version 2 at this gate until version 3 is there. Five cycles of five each are 25.
fn outdate<R: Threads + Wait + Sync + Abort, G: Gate>(
    rt: &R,
    alloc: Global,
    holding: &HoldingGate,
    gate: &G,
) -> Result<(), Fail> {
    let again = joined(alloc, &[AGAIN, b"settle\nshow\n"])?;
    let then = Held {
        script: again.as_slice(),
        at: b"ok edit v=3",
        read: 9,
        write: 9,
    };
    let script = joined(alloc, &[OPEN, RUN, EDIT])?;
    let ran = ran_before(rt, alloc, "--workers 2", script, &then, holding, gate)?;
    let lines: [&[u8]; 6] = [
        OPEN_LINES,
        RUN_LINES,
        EDIT_LINES,
        AGAIN_LINES,
        b"settled cycle=5 v=3\n",
        b"show cycle=5 settled v=3\ntop.acc 19\n",
    ];
    let replay = right(rt, alloc, &ran, 0, &lines, &[0, 1, 2])?;
    assert!(rt; holding.has_let_go());
    assert_eq!(rt;
        (replay.older(), replay.settled_to(), replay.acc()),
        (2, None, 25)
    );
    Ok(())
}

#[test]
fn what_is_verified_for_an_older_version_changes_nothing(rt: HostRuntime) -> Result<(), Fail> {
    let holding = HoldingGate::new(2);
    outdate(&rt, rt.alloc(), &holding, &holding)
}

#[test]
fn results_of_an_older_version_change_nothing(rt: HostRuntime) -> Result<(), Fail> {
    let holding = HoldingGate::new(2);
    let gate = InstallGate { holding: &holding };
    outdate(&rt, rt.alloc(), &holding, &gate)
}
