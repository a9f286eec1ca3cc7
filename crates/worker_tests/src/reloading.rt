// The session reloads in turns, while workers verify, and then asks until all links are joined.
ghost use Rattle.std.specs.Prelude.{◌≡◌, ◌<◌, true, false, IfOk};
ghost use Rattle.book_turn.specs.Passes.{IsOf, known};
ghost use Rattle.book_turn.specs.Turns.{GoesOn};
ghost use Rattle.segment_verify.specs.Workers.{is_closed, IsFree};
ghost use Rattle.worker_tests.specs.Spoken.{AddsSpoken};

use crate::asking::ask_often;
use book_history::version::Version;
use book_turn::{SessionPass, Turn};
use checkpoint_book::book::Book;
use ls_text::NoMemory;
use machine::steps::Steps;
use machine::tally::TallyMachine;
use std::alloc::Global;
use std::marker::Brand;
use std::sync::ledger::{Blank, Ledger};
use std::sync::{Arc, Wait};
use std::thread::Threads;
use test_gates::HoldingGate;
use worker_scope::SessionWork;

/// Once the gate holds its tickets, makes so many reloads, has the gate let them go, which ends as another ticket comes, and makes as many more. Then it
/// asks so often at most. The answer is how many reloads were made, and whether all links are joined.
#[derive(Drop)]
pub struct Reloading {
    pub alloc: Global,
    pub reloads: u32,
    pub times: u32,
    pub holding: Arc<HoldingGate, Global>,
}

impl SessionWork<TallyMachine> for Reloading {
    type Answer = (u32, bool);

    ghost ready = { λ s v. Unit {0} };

    ghost does = { λ s v w a. Unit {0} };

    fn work<R: Threads + Wait + Sync>(
        self,
        rt: &R,
        turn: &Turn<Book<TallyMachine>>,
        pass: &mut SessionPass<Book<TallyMachine>>,
    ) -> (u32, bool) {
        reload_and_ask(rt, self, turn, pass)
    }
}

/// The reloads, and then the asks.
#[tactic(auto, using(book_turn::proofs::Turns::goes_more))]
fn reload_and_ask<R: Wait>(
    rt: &R,
    reloading: Reloading,
    turn: &Turn<Book<TallyMachine>>,
    pass: &mut SessionPass<Book<TallyMachine>>,
) -> (u32, bool)
    requires turn { IsOf turn.now pass.old true }
    requires free { IsFree (known pass.old) }
    requires open { is_closed (known pass.old).own ≡ false }
    ensures turn { IsOf turn.now pass.new true }
    ensures free { IsFree (known pass.new) }
    ensures open { is_closed (known pass.new).own ≡ false }
    ensures goes { GoesOn (known pass.old) (known pass.new) }
{
    let alloc = reloading.alloc;
    reloading.holding.await_all();
    let before = reload_uncounted(rt, alloc, turn, pass, reloading.reloads);
    reloading.holding.let_go();
    let behind = reload_uncounted(rt, alloc, turn, pass, reloading.reloads);
    let made = before.saturating_add(behind);
    (made, ask_often(rt, turn, pass, reloading.times))
}

/// Reloads with a counter of its own, which nobody reads.
fn reload_uncounted<R: Wait>(
    rt: &R,
    alloc: Global,
    turn: &Turn<Book<TallyMachine>>,
    pass: &mut SessionPass<Book<TallyMachine>>,
    reloads: u32,
) -> u32
    requires turn { IsOf turn.now pass.old true }
    requires free { IsFree (known pass.old) }
    requires open { is_closed (known pass.old).own ≡ false }
    ensures turn { IsOf turn.now pass.new true }
    ensures free { IsFree (known pass.new) }
    ensures open { is_closed (known pass.new).own ≡ false }
    ensures goes { GoesOn (known pass.old) (known pass.new) }
{
    reload_often::<Brand, R>(rt, alloc, turn, pass, reloads, Blank::new(1))
}

/// Makes so many reloads, each in one turn, up to the first that can't be made. The answer is how many were made.
#[tactic(auto, using(book_turn::proofs::Turns::goes_none, book_turn::proofs::Turns::goes_more))]
fn reload_often<L: Ledger, R: Wait>(
    rt: &R,
    alloc: Global,
    turn: &Turn<Book<TallyMachine>>,
    pass: &mut SessionPass<Book<TallyMachine>>,
    reloads: u32,
    blank: Blank,
) -> u32
    requires name { blank.name ≡ L.name }
    requires parts { blank.parts ≡ L.parts }
    requires some { 0 < blank.parts }
    requires turn { IsOf turn.now pass.old true }
    requires free { IsFree (known pass.old) }
    requires open { is_closed (known pass.old).own ≡ false }
    ensures turn { IsOf turn.now pass.new true }
    ensures free { IsFree (known pass.new) }
    ensures open { is_closed (known pass.new).own ≡ false }
    ensures goes { GoesOn (known pass.old) (known pass.new) }
{
    let mut steps = Steps::<L>::start(blank);
    for made in 0..reloads {
        if !reload(rt, alloc, turn, pass, &mut steps) {
            return made;
        }
    }
    reloads
}

/// One reload, in one turn of the book. The answer is whether it was made.
fn reload<L: Ledger, R: Wait>(
    rt: &R,
    alloc: Global,
    turn: &Turn<Book<TallyMachine>>,
    pass: &mut SessionPass<Book<TallyMachine>>,
    steps: &mut Steps<L>,
) -> bool
    requires turn { IsOf turn.now pass.old true }
    requires free { IsFree (known pass.old) }
    requires open { is_closed (known pass.old).own ≡ false }
    ensures turn { IsOf turn.now pass.new true }
    ensures free { IsFree (known pass.new) }
    ensures open { is_closed (known pass.new).own ≡ false }
    ensures goes { GoesOn (known pass.old) (known pass.new) }
{
    let mut boxed = turn.enter(rt, pass);
    let book: &mut Book<TallyMachine> = &mut boxed;
    let answer = reload_next(book, alloc, steps);
    turn.leave(rt, pass, boxed);
    answer
}

/// Reloads with the next version. The answer is whether it was made: not without a version, without room, after a million of
/// them, or where memory runs out.
#[tactic(auto, using(crate::proofs::Spoken::none_added, crate::proofs::Spoken::one_added))]
pub fn reload_next<L: Ledger>(
    book: &mut Book<TallyMachine>,
    alloc: Global,
    steps: &mut Steps<L>,
) -> bool
    ensures { AddsSpoken book.old book.new }
{
    let current = book.version();
    if current == 0 || current > 1000000 || book.session_room() == 0 {
        return false;
    }
    match numbered(alloc, current + 1) {
        Ok(version) => book.reload(version, (), steps).is_ok(),
        Err(_) => false,
    }
}

/// The version of this number: its machine adds the number and 2.
pub fn numbered(alloc: Global, number: u64) -> Result<Arc<Version<TallyMachine>, Global>, NoMemory>
    ensures { IfOk result (λ v. v.value.number ≡ number) }
{
    let add = number.wrapping_add(2);
    let machine = Arc::new(alloc, TallyMachine { add })?;
    Ok(Arc::new(alloc, Version { number, machine })?)
}
