// Who settles. The assertions are the same whatever the schedule.
use crate::asking_source::AskingSource;
use crate::counting::{claims, installs, tickets};
use crate::outcome::right;
use crate::ran::Ran;
use crate::running::{ran, ran_of, replayed, words_of};
use crate::scripts::{DISPLAY, EDIT, EDIT_LINES, OPEN, OPEN_LINES, RUN, RUN_LINES, joined};
use crate::watched_sink::WatchedSink;
use book_history::who::Who;
use livesim::live_run;
use ls_port::{GateStep, OpenGate, SolidShelf, SolidSink, SolidSource};
use ls_text::NoMemory;
use std::alloc::Global;
use std::process::Abort;
use std::sync::Wait;
use std::sync::atomic::AtomicBool;
use std::test::Fail;
use std::thread::Threads;
use test_gates::{Meeting, MeetingGate};

/// Two tickets reach their install before either is behind it, so the session doesn't verify alone, and the book is free meanwhile.
fn meet<R: Threads + Wait + Sync + Abort>(rt: &R, alloc: Global, given: &str) -> Result<(), Fail> {
    let gate = MeetingGate {
        step: GateStep::Install,
        meeting: Meeting::new(),
    };
    let script = joined(alloc, &[OPEN, RUN, EDIT, b"settle\nshow\n"])?;
    let ran = ran(rt, alloc, given, script, &gate)?;
    let lines: [&[u8]; 5] = [
        OPEN_LINES,
        RUN_LINES,
        EDIT_LINES,
        b"settled cycle=5 v=2\n",
        DISPLAY,
    ];
    let replay = right(rt, alloc, &ran, 0, &lines, &[0, 1])?;
    assert_eq!(rt; (replay.settled_to(), replay.acc()), (None, 20));
    let Some((first, second)) = gate.meeting.met() else {
        return Err("no second ticket came")?;
    };
    let (first, second) = (
        installs(&ran.entries, first),
        installs(&ran.entries, second),
    );
    assert_eq!(rt; (first, second), (1, 1));
    Ok(())
}

#[test]
fn a_ticket_waits_at_install_for_that_of_one_of_two_workers(rt: HostRuntime) -> Result<(), Fail> {
    meet(&rt, rt.alloc(), "--workers 2")
}

#[test]
fn a_ticket_waits_at_install_for_that_of_one_of_eight_workers(rt: HostRuntime) -> Result<(), Fail> {
    meet(&rt, rt.alloc(), "--workers 8")
}

/// The short script and then so many displays at most, beside two workers, until one is settled, which raises the flag.
fn asked<R: Threads + Wait + Sync>(
    rt: &R,
    alloc: Global,
    asks: u32,
    settled: &AtomicBool,
) -> Result<Ran, NoMemory> {
    let words = words_of(alloc, "--workers 2")?;
    let mut source = AskingSource {
        script: SolidSource::new(joined(alloc, &[OPEN, RUN, EDIT])?),
        settled,
        asks,
    };
    let mut sink = WatchedSink {
        sink: SolidSink::new(alloc),
        settled,
    };
    let mut shelf = SolidShelf::new(alloc, Vec::new(alloc));
    let outcome = live_run(
        rt,
        alloc,
        &words,
        &mut source,
        &mut sink,
        &mut shelf,
        &OpenGate,
    );
    ran_of(alloc, &outcome, sink.sink.bytes())
}

#[test]
fn only_workers_settle(rt: HostRuntime) -> Result<(), Fail> {
    let alloc = rt.alloc();
    let settled = AtomicBool::new(false);
    let ran = asked(&rt, alloc, 1000, &settled)?;
    assert_eq!(rt; ran.status, 0);
    assert!(rt; ran.lines.ends_with(DISPLAY));
    assert_eq!(rt; claims(&ran.entries, Who::Session), 0);
    assert!(rt; tickets(&ran.entries) > 0);
    let Some(replay) = replayed(alloc, &ran, vec![in alloc; 0u8, 1u8]?)? else {
        return Err("the history isn't right")?;
    };
    assert_eq!(rt;
        (replay.settled_to(), replay.acc(), replay.is_over()),
        (None, 20, true)
    );
    Ok(())
}
