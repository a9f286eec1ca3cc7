// The session settles once a gate holds its tickets.
ghost use Rattle.std.specs.Prelude.{◌≡◌, ◌+◌, ◌*◌, true, false};
ghost use Rattle.book_history.specs.Owned.{owned};
ghost use Rattle.book_history.specs.Readers.{IsOpened};
ghost use Rattle.book_turn.specs.Passes.{IsOf, known};
ghost use Rattle.book_turn.specs.Turns.{GoesOn};
ghost use Rattle.checkpoint_book.specs.Views.{book_of, HasSessionRoom};
ghost use Rattle.segment_verify.specs.Workers.{is_closed, IsFree};
ghost use Rattle.turn_settle.specs.Seen.{book_seen, HasOwnRoom};

use crate::watched::WatchedMachine;
use book_turn::{SessionPass, Turn};
use checkpoint_book::book::Book;
use checkpoint_book::shown::Shown;
use ls_port::OpenGate;
use ls_text::NoMemory;
use machine::Machine;
use std::alloc::Global;
use std::sync::{Arc, Wait};
use std::thread::Threads;
use test_gates::HoldingGate;
use turn_settle::settle;
use worker_scope::SessionWork;

/// Settles by so many passes at most, once the gate holds its tickets. The answer is that of the settle, and None where the book has no
/// version or no room for it, or memory runs out.
#[derive(Drop)]
pub struct Settling {
    pub alloc: Global,
    pub passes: u32,
    pub holding: Arc<HoldingGate, Global>,
}

impl SessionWork<WatchedMachine> for Settling {
    type Answer = Option<Shown>;

    ghost ready = { λ s v. Unit {0} };

    ghost does = { λ s v w a. Unit {0} };

    fn work<R: Threads + Wait + Sync>(
        self,
        rt: &R,
        turn: &Turn<Book<WatchedMachine>>,
        pass: &mut SessionPass<Book<WatchedMachine>>,
    ) -> Option<Shown> {
        self.holding.await_all();
        settle_where_it_can(rt, self.alloc, turn, pass, self.passes)
    }
}

/// Settles where the book has a version and room.
fn settle_where_it_can<M: Machine, R: Wait>(
    rt: &R,
    alloc: Global,
    turn: &Turn<Book<M>>,
    pass: &mut SessionPass<Book<M>>,
    passes: u32,
) -> Option<Shown>
    requires turn { IsOf turn.now pass.old true }
    requires free { IsFree (known pass.old) }
    requires open { is_closed (known pass.old).own ≡ false }
    ensures turn { IsOf turn.now pass.new true }
    ensures free { IsFree (known pass.new) }
    ensures open { is_closed (known pass.new).own ≡ false }
    ensures goes { GoesOn (known pass.old) (known pass.new) }
{
    if !can_settle(rt, turn, pass, passes) {
        return None;
    }
    match settle(rt, alloc, turn, pass, &OpenGate, passes) {
        Ok(shown) => Some(shown),
        Err(NoMemory) => None,
    }
}

/// Whether the book has a version and room for so many passes and a show, by one turn of it.
fn can_settle<M: Machine, R: Wait>(
    rt: &R,
    turn: &Turn<Book<M>>,
    pass: &mut SessionPass<Book<M>>,
    passes: u32,
) -> bool
    requires turn { IsOf turn.now pass.old true }
    requires free { IsFree (known pass.old) }
    requires open { is_closed (known pass.old).own ≡ false }
    ensures turn { IsOf turn.now pass.new true }
    ensures free { IsFree (known pass.new) }
    ensures open { is_closed (known pass.new).own ≡ false }
    ensures goes { GoesOn (known pass.old) (known pass.new) }
    ensures own { owned (known pass.new).seen ≡ (known pass.new).own }
    ensures opened { result ≡ true → IsOpened (book_seen M.kit (known pass.new)) }
    ensures room { result ≡ true → HasOwnRoom (known pass.new) (2 * passes + 1) }
{
    let mut boxed = turn.enter(rt, pass);
    let book: &mut Book<M> = &mut boxed;
    let answer = has_room(book, passes);
    turn.leave(rt, pass, boxed);
    answer
}

/// Whether the book has a version and room for so many passes and a show.
fn has_room<M: Machine>(book: &Book<M>, passes: u32) -> bool
    ensures opened { result ≡ true → IsOpened (book_of M.kit book.now) }
    ensures room { result ≡ true → HasSessionRoom book.now (2 * passes + 1) }
{
    if book.version() == 0 {
        return false;
    }
    u64::from(book.session_room()) > 2 * u64::from(passes)
}
