// The session asks in turns until all links are joined.
ghost use Rattle.std.specs.Prelude.{◌≡◌, true, false};
ghost use Rattle.book_turn.specs.Passes.{IsOf, known};
ghost use Rattle.book_turn.specs.Turns.{GoesOn};
ghost use Rattle.segment_verify.specs.Workers.{is_closed, IsFree};
ghost use Rattle.worker_tests.specs.Spoken.{AddsSpoken};

use crate::watched::WatchedMachine;
use book_turn::{SessionPass, Turn};
use checkpoint_book::book::Book;
use checkpoint_book::shown::Shown;
use machine::Machine;
use machine::tally::TallyMachine;
use std::sync::Wait;
use std::thread::{Threads, yield_now};
use worker_scope::SessionWork;

/// Asks so often at most, until all links are joined. The answer is whether they are.
#[derive(Drop)]
pub struct Asking {
    pub times: u32,
}

impl SessionWork<TallyMachine> for Asking {
    type Answer = bool;

    ghost ready = { λ s v. Unit {0} };

    ghost does = { λ s v w a. Unit {0} };

    fn work<R: Threads + Wait + Sync>(
        self,
        rt: &R,
        turn: &Turn<Book<TallyMachine>>,
        pass: &mut SessionPass<Book<TallyMachine>>,
    ) -> bool {
        ask_often(rt, turn, pass, self.times)
    }
}

impl SessionWork<WatchedMachine> for Asking {
    type Answer = bool;

    ghost ready = { λ s v. Unit {0} };

    ghost does = { λ s v w a. Unit {0} };

    fn work<R: Threads + Wait + Sync>(
        self,
        rt: &R,
        turn: &Turn<Book<WatchedMachine>>,
        pass: &mut SessionPass<Book<WatchedMachine>>,
    ) -> bool {
        ask_often(rt, turn, pass, self.times)
    }
}

/// Asks so often at most, and yields the processor between two turns.
#[tactic(auto, using(book_turn::proofs::Turns::goes_none, book_turn::proofs::Turns::goes_more))]
pub fn ask_often<M: Machine, R: Wait>(
    rt: &R,
    turn: &Turn<Book<M>>,
    pass: &mut SessionPass<Book<M>>,
    times: u32,
) -> bool
    requires turn { IsOf turn.now pass.old true }
    requires free { IsFree (known pass.old) }
    requires open { is_closed (known pass.old).own ≡ false }
    ensures turn { IsOf turn.now pass.new true }
    ensures free { IsFree (known pass.new) }
    ensures open { is_closed (known pass.new).own ≡ false }
    ensures goes { GoesOn (known pass.old) (known pass.new) }
{
    for _ in 0..times {
        if ask(rt, turn, pass) {
            return true;
        }
        rest();
    }
    false
}

/// Lets others run.
fn rest() {
    for _ in 0..1000 {
        yield_now();
    }
}

/// Whether all links are joined, in one turn of the book.
fn ask<M: Machine, R: Wait>(rt: &R, turn: &Turn<Book<M>>, pass: &mut SessionPass<Book<M>>) -> bool
    requires turn { IsOf turn.now pass.old true }
    requires free { IsFree (known pass.old) }
    requires open { is_closed (known pass.old).own ≡ false }
    ensures turn { IsOf turn.now pass.new true }
    ensures free { IsFree (known pass.new) }
    ensures open { is_closed (known pass.new).own ≡ false }
    ensures goes { GoesOn (known pass.old) (known pass.new) }
{
    let mut boxed = turn.enter(rt, pass);
    let book: &mut Book<M> = &mut boxed;
    let answer = is_settled(book);
    turn.leave(rt, pass, boxed);
    answer
}

/// Whether a show answers so. Without a version or a room for it the answer is no.
#[tactic(auto, using(crate::proofs::Spoken::none_added, crate::proofs::Spoken::one_added))]
fn is_settled<M: Machine>(book: &mut Book<M>) -> bool
    ensures { AddsSpoken book.old book.new }
{
    if book.version() == 0 || book.session_room() == 0 {
        return false;
    }
    book.show() == Shown::Settled
}
