// Workers in threads beside a session, over books of eight cycles with a mark at each. The assertions are the same
// whatever the schedule.
ghost use Rattle.std.specs.Prelude.{◌≡◌, ◌<◌, [], false, IfOk};
ghost use Rattle.book_turn.specs.Known.{Known};
ghost use Rattle.checkpoint_book.specs.Views.{counts_of};

use crate::asking::Asking;
use crate::reloading::{Reloading, numbered, reload_next};
use crate::replay::Replay;
use crate::settling::Settling;
use crate::watch::Watch;
use crate::watched::WatchedMachine;
use book_history::entry::Entry;
use book_history::history::History;
use book_history::rooms::Rooms;
use book_history::version::Version;
use book_history::who::Who;
use book_turn::Turn;
use checkpoint_book::book::Book;
use checkpoint_book::shown::Shown;
use ls_port::{Gate, GateStep, OpenGate};
use ls_text::NoMemory;
use machine::Machine;
use machine::row_run::RowRun;
use machine::row_runs::RowRuns;
use machine::steps::Steps;
use machine::tally::TallyMachine;
use std::alloc::Global;
use std::marker::Brand;
use std::process::Abort;
use std::sync::ledger::{Blank, Ledger};
use std::sync::{Arc, Wait};
use std::test::Fail;
use std::thread::Threads;
use test_gates::{HoldingGate, Meeting, MeetingGate, NotingGate};
use worker_scope::{SessionWork, Worked, with_workers};

/// How often a session asks at most.
const TIMES: u32 = 100000;

/// Room for all that is added. After each of 1,001 reloads the n-th of the eight links opens at most n times, since only
/// another start opens it again: 36 tickets at most, which are 72 entries.
const ROOMS: Rooms = Rooms {
    session: 110000,
    workers: 80000,
};

/// The first version of a book that has none.
fn begin<M: Machine>(book: &mut Book<M>, version: Arc<Version<M>, Global>) -> Result<(), Fail>
    requires { book.old.events ≡ [] }
    ensures { (counts_of book.new).closed ≡ false }
{
    if version.number != 1 || book.session_room() == 0 {
        return Err("no version 1")?;
    }
    book.open(version)?;
    Ok(())
}

/// Eight cycles over rows of this row.
fn run_eight<M: Machine, L: Ledger>(
    book: &mut Book<M>,
    alloc: Global,
    row: M::Row,
    steps: &mut Steps<L>,
) -> Result<(), Fail>
    requires { (counts_of book.old).closed ≡ false }
    ensures { (counts_of book.new).closed ≡ false }
{
    let start = book.cycle();
    if book.version() == 0 || book.session_room() == 0 || start > 1000000 {
        return Err("no run")?;
    }
    let mut runs = Vec::new(alloc);
    runs.push(RowRun {
        start,
        end: start + 8,
        row: Arc::new(alloc, row)?,
    })?;
    let rows = RowRuns::new(start, start + 8, runs)?;
    if rows.end() != start + 8 {
        return Err("no rows")?;
    }
    book.run(rows, 8, steps)?;
    Ok(())
}

/// Eight cycles under a machine that adds 3, and a reload with one that adds 4.
#[tactic(auto, using(crate::proofs::Spoken::open_with))]
fn edited<L: Ledger>(alloc: Global, blank: Blank) -> Result<Box<Book<TallyMachine>>, Fail>
    requires name { blank.name ≡ L.name }
    requires parts { blank.parts ≡ L.parts }
    requires some { 0 < blank.parts }
    ensures { IfOk result (λ b. (counts_of b.value).closed ≡ false) }
{
    let mut steps = Steps::<L>::start(blank);
    let mut boxed = Book::<TallyMachine>::new(alloc, 1, 1, ROOMS)?;
    let book: &mut Book<TallyMachine> = &mut boxed;
    begin(book, numbered(alloc, 1)?)?;
    run_eight(book, alloc, 0, &mut steps)?;
    if !reload_next(book, alloc, &mut steps) {
        return Err("no reload")?;
    }
    Ok(boxed)
}

/// The book after its session's work with so many workers beside it, and what the work answers.
fn beside<M: Machine, G: Gate, W: SessionWork<M>, R: Threads + Wait + Sync>(
    rt: &R,
    alloc: Global,
    book: Box<Book<M>>,
    workers: u16,
    gate: &G,
    session: W,
) -> Result<(Box<Book<M>>, W::Answer), Fail>
where
    W::Answer: Drop,
    requires open { (counts_of book.value).closed ≡ false }
    requires ready { (u : Known M M.Row M.Ops) → W.ready session u }
{
    let (turn, pass) = Turn::make(rt, alloc, book)?;
    let Worked {
        pass,
        answer,
        started,
        refusal,
    } = with_workers(rt, alloc, &turn, pass, workers, gate, session);
    let book = turn.finish(rt, pass);
    if started != workers || refusal.is_some() {
        return Err("a worker was not started")?;
    }
    Ok((book, answer))
}

/// The last mark's state.
fn last<M: Machine>(book: &Book<M>) -> Result<&M::State, Fail> {
    if book.version() == 0 {
        return Err("no version")?;
    }
    Ok(book.current())
}

/// Whether the plain replay takes each entry, and ends with all links joined, the book closed and no ticket out.
fn is_right<M: Machine>(alloc: Global, history: &History<M>) -> bool {
    let mut replay = Replay::new(alloc);
    for entry in history.entries() {
        if !replay.take(*entry) {
            return false;
        }
    }
    replay.is_settled() && replay.is_over()
}

/// How often this ticket was installed.
fn installs<M: Machine>(history: &History<M>, number: u64) -> usize {
    history
        .entries()
        .iter()
        .filter(|entry| matches!(entry, Entry::Install { ticket, .. } if *ticket == number))
        .count()
}

/// How many results of an older version or start were handed in.
fn older<M: Machine>(history: &History<M>) -> usize {
    history
        .entries()
        .iter()
        .filter(|entry| matches!(entry, Entry::Install { joined: false, .. }))
        .count()
}

#[test]
fn four_workers_join_all_links(rt: HostRuntime) -> Result<(), Fail> {
    let alloc = rt.alloc();
    let book = edited::<Brand>(alloc, Blank::new(1))?;
    let (book, settled) = beside(&rt, alloc, book, 4, &OpenGate, Asking { times: TIMES })?;
    assert!(rt; settled);
    assert_eq!(rt; *last(&book)?, 32);
    let history = Book::into_history(book);
    assert!(rt; is_right(alloc, &history));
    Ok(())
}

#[test]
fn without_workers_the_history_is_the_sessions(rt: HostRuntime) -> Result<(), Fail> {
    let alloc = rt.alloc();
    let book = edited::<Brand>(alloc, Blank::new(1))?;
    let (book, settled) = beside(&rt, alloc, book, 0, &OpenGate, Asking { times: 1 })?;
    assert!(rt; !settled);
    // The mark at 7 is still the older machine's.
    assert_eq!(rt; *last(&book)?, 25);
    let history = Book::into_history(book);
    let wanted = [
        Entry::Open { version: 1 },
        Entry::Run { n: 8 },
        Entry::Reload {
            version: 2,
            from: 7,
        },
        Entry::Show {
            settled_to: Some(0),
        },
        Entry::Close,
    ];
    assert_eq!(rt; history.entries(), wanted.as_slice());
    Ok(())
}

#[test]
fn eight_workers_beside_a_thousand_reloads(rt: HostRuntime) -> Result<(), Fail> {
    let alloc = rt.alloc();
    let book = edited::<Brand>(alloc, Blank::new(1))?;
    let holding = Arc::new(alloc, HoldingGate::new(7))?;
    let session = Reloading {
        alloc,
        reloads: 500,
        times: TIMES,
        holding: Arc::try_clone(&holding)?,
    };
    let gate: &HoldingGate = &*holding;
    let (book, answer) = beside(&rt, alloc, book, 8, gate, session)?;
    assert_eq!(rt; answer, (1000, true));
    // Version 1002 adds 1004.
    assert_eq!(rt; *last(&book)?, 8032);
    let history = Book::into_history(book);
    assert!(rt; is_right(alloc, &history));
    // The first seven tickets were drawn under version 2 and handed in under 502, and the eighth came before the next reload.
    assert!(rt; holding.has_let_go());
    assert!(rt; older(&history) >= 7);
    Ok(())
}

/// Two tickets reach this step before either is behind it, so the book was free while the first one waited there, and a
/// second thread worked on the other.
fn meet<R: Threads + Wait + Sync + Abort>(
    rt: &R,
    alloc: Global,
    workers: u16,
    step: GateStep,
) -> Result<(), Fail> {
    let book = edited::<Brand>(alloc, Blank::new(1))?;
    let gate = MeetingGate {
        step,
        meeting: Meeting::new(),
    };
    let (book, settled) = beside(rt, alloc, book, workers, &gate, Asking { times: TIMES })?;
    assert!(rt; settled);
    assert_eq!(rt; *last(&book)?, 32);
    let history = Book::into_history(book);
    assert!(rt; is_right(alloc, &history));
    let Some((first, second)) = gate.meeting.met() else {
        return Err("no second ticket came")?;
    };
    assert_eq!(rt;
        (installs(&history, first), installs(&history, second)),
        (1, 1)
    );
    Ok(())
}

#[test]
fn a_ticket_waits_at_install_for_that_of_the_other_worker(rt: HostRuntime) -> Result<(), Fail> {
    meet(&rt, rt.alloc(), 2, GateStep::Install)
}

#[test]
fn a_ticket_waits_at_install_for_that_of_another_worker(rt: HostRuntime) -> Result<(), Fail> {
    meet(&rt, rt.alloc(), 8, GateStep::Install)
}

#[test]
fn a_ticket_waits_at_verify_for_that_of_the_other_worker(rt: HostRuntime) -> Result<(), Fail> {
    meet(&rt, rt.alloc(), 2, GateStep::Verify)
}

#[test]
fn a_ticket_waits_at_verify_for_that_of_another_worker(rt: HostRuntime) -> Result<(), Fail> {
    meet(&rt, rt.alloc(), 8, GateStep::Verify)
}

/// The version of this number for the machine that adds the number and 2, and is watched so.
fn watched(
    alloc: Global,
    number: u64,
    watch: Watch,
) -> Result<Arc<Version<WatchedMachine>, Global>, NoMemory>
    ensures { IfOk result (λ v. v.value.number ≡ number) }
{
    let machine = Arc::new(alloc, WatchedMachine::new(number.wrapping_add(2), watch))?;
    Ok(Arc::new(alloc, Version { number, machine })?)
}

/// The second version, which is watched so.
fn watch_next<L: Ledger>(
    book: &mut Book<WatchedMachine>,
    alloc: Global,
    watch: Watch,
    steps: &mut Steps<L>,
) -> Result<(), Fail>
    requires { (counts_of book.old).closed ≡ false }
    ensures { (counts_of book.new).closed ≡ false }
{
    if book.version() != 1 || book.session_room() == 0 {
        return Err("no reload")?;
    }
    book.reload(watched(alloc, 2, watch)?, (), steps)?;
    Ok(())
}

/// Eight cycles under a machine that adds 3, and a reload with one that adds 4 and is watched so.
fn edited_and_watched<L: Ledger>(
    alloc: Global,
    watch: Watch,
    blank: Blank,
) -> Result<Box<Book<WatchedMachine>>, Fail>
    requires name { blank.name ≡ L.name }
    requires parts { blank.parts ≡ L.parts }
    requires some { 0 < blank.parts }
    ensures { IfOk result (λ b. (counts_of b.value).closed ≡ false) }
{
    let mut steps = Steps::<L>::start(blank);
    let mut boxed = Book::<WatchedMachine>::new(alloc, 1, 1, ROOMS)?;
    let book: &mut Book<WatchedMachine> = &mut boxed;
    begin(book, watched(alloc, 1, Watch::Nothing)?)?;
    run_eight(book, alloc, 0, &mut steps)?;
    watch_next(book, alloc, watch, &mut steps)?;
    Ok(boxed)
}

/// Two verifications are under way at once, so neither has the book, and they are in two threads.
fn verify_together<R: Threads + Wait + Sync + Abort>(
    rt: &R,
    alloc: Global,
    workers: u16,
) -> Result<(), Fail> {
    let meeting = Arc::new(alloc, Meeting::new())?;
    let watch = Watch::Meets(Arc::try_clone(&meeting)?);
    let book = edited_and_watched::<Brand>(alloc, watch, Blank::new(1))?;
    let (book, settled) = beside(rt, alloc, book, workers, &OpenGate, Asking { times: TIMES })?;
    assert!(rt; settled);
    assert_eq!(rt; *last(&book)?, 32);
    let history = Book::into_history(book);
    assert!(rt; is_right(alloc, &history));
    assert!(rt; meeting.met().is_some());
    Ok(())
}

#[test]
fn two_workers_verify_at_once(rt: HostRuntime) -> Result<(), Fail> {
    verify_together(&rt, rt.alloc(), 2)
}

#[test]
fn two_of_eight_workers_verify_at_once(rt: HostRuntime) -> Result<(), Fail> {
    verify_together(&rt, rt.alloc(), 8)
}

/// The tickets that were given up.
fn releases<M: Machine>(history: &History<M>) -> usize {
    history
        .entries()
        .iter()
        .filter(|entry| matches!(entry, Entry::Release { .. }))
        .count()
}

#[test]
fn a_worker_gives_a_ticket_up_at_want_of_memory(rt: HostRuntime) -> Result<(), Fail> {
    let alloc = rt.alloc();
    let book = edited_and_watched::<Brand>(alloc, Watch::refuses_once(), Blank::new(1))?;
    let gate = NotingGate::new();
    let (book, settled) = beside(&rt, alloc, book, 2, &gate, Asking { times: TIMES })?;
    assert!(rt; settled);
    assert_eq!(rt; *last(&book)?, 32);
    let history = Book::into_history(book);
    assert!(rt; is_right(alloc, &history));
    // The first ticket is that of the first link, and so of the first run from cycle 0.
    assert_eq!(rt; (releases(&history), installs(&history, 1)), (1, 0));
    // Its release was asked for at the gate as an install is.
    assert!(rt; gate.noted(1) && !gate.mixed_up());
    Ok(())
}

/// Whether this ticket was drawn by that one.
fn drew<M: Machine>(history: &History<M>, number: u64, who: Who) -> bool {
    history.entries().iter().any(
        |entry| matches!(entry, Entry::Claim { ticket, by, .. } if *ticket == number && *by == who),
    )
}

// The worker holds ticket 1 until the machine runs for ticket 2, the session's, and that run waits until the worker has handed in the one
// and drawn ticket 3: so the session hasn't the book as it verifies.
#[test]
fn others_have_the_book_as_the_session_verifies(rt: HostRuntime) -> Result<(), Fail> {
    let alloc = rt.alloc();
    let holding = Arc::new(alloc, HoldingGate::new(1))?;
    let watch = Watch::LetsGo(Arc::try_clone(&holding)?);
    let book = edited_and_watched::<Brand>(alloc, watch, Blank::new(1))?;
    let session = Settling {
        alloc,
        passes: 8,
        holding: Arc::try_clone(&holding)?,
    };
    let gate: &HoldingGate = &*holding;
    let (book, shown) = beside(&rt, alloc, book, 1, gate, session)?;
    assert_eq!(rt; shown, Some(Shown::Settled));
    assert_eq!(rt; *last(&book)?, 32);
    let history = Book::into_history(book);
    assert!(rt; is_right(alloc, &history));
    assert!(rt; holding.has_let_go());
    assert!(rt; drew(&history, 1, Who::Worker(0)));
    assert!(rt; drew(&history, 2, Who::Session));
    assert!(rt; drew(&history, 3, Who::Worker(0)));
    Ok(())
}
