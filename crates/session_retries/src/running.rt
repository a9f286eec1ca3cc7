// A session is asked all rows, and the history that its book comes back with is looked at.
ghost use Rattle.std.specs.Prelude.{◌≡◌, true, false};
ghost use Rattle.book_turn.specs.Passes.{IsOf, known};
ghost use Rattle.live_session.specs.AtTurn.{StandsAt};
ghost use Rattle.segment_verify.specs.Workers.{is_closed, IsFree};

use crate::asking::carry;
use crate::dry_shelf::DryShelf;
use crate::rows::{FILES, ROWS, START};
use book_history::rooms::Rooms;
use book_turn::{SessionPass, Turn};
use checkpoint_book::book::Book;
use cycle_eval::Design;
use history_replay::{is_over, is_right};
use live_session::{Limits, Session};
use ls_port::{MemShelf, NamedText, Shelf};
use ls_text::{NoMemory, TextBytes};
use std::alloc::Global;
use std::sync::Wait;
use std::thread::Threads;

const LIMITS: Limits = Limits {
    cycles: 1000,
    stimulus: 1000,
    rooms: Rooms {
        session: 1000,
        workers: 0,
    },
};

/// How often a command is asked at most.
const TRIES: u32 = 4;

/// The shelf's texts.
fn texts(alloc: Global) -> Result<Vec<NamedText>, NoMemory> {
    let mut texts = Vec::new(alloc);
    for (name, text) in FILES {
        texts.push(NamedText {
            name: TextBytes::new(Vec::from_slice(alloc, name)?),
            text: TextBytes::new(Vec::from_slice(alloc, text)?),
        })?;
    }
    Ok(texts)
}

/// The first command that isn't right.
fn first_wrong<R: Threads + Wait + Sync, F: Shelf>(
    rt: &R,
    alloc: Global,
    session: &mut Session,
    turn: &Turn<Book<Design>>,
    pass: &mut SessionPass<Book<Design>>,
    shelf: &mut F,
    refusals: &mut u64,
) -> Result<Option<&'static [u8]>, NoMemory>
    requires turn { IsOf turn.now pass.old true }
    requires at { StandsAt session.old (known pass.old) }
    ensures turn { IsOf turn.now pass.new true }
    ensures at { StandsAt session.new (known pass.new) }
{
    let mut before = START;
    for row in ROWS {
        if !carry(
            rt, alloc, session, turn, pass, shelf, &before, &row, refusals, TRIES,
        )? {
            return Ok(Some(row.command));
        }
        before = row;
    }
    Ok(None)
}

/// Closes the book.
fn close<R: Wait>(rt: &R, turn: &Turn<Book<Design>>, pass: &mut SessionPass<Book<Design>>)
    requires turn { IsOf turn.now pass.old true }
    requires free { IsFree (known pass.old) }
    requires open { is_closed (known pass.old).own ≡ false }
    ensures turn { IsOf turn.now pass.new true }
    ensures free { IsFree (known pass.new) }
{
    let mut boxed = turn.enter(rt, pass);
    let book: &mut Book<Design> = &mut boxed;
    book.close();
    turn.leave(rt, pass, boxed);
}

/// What isn't right of a session that is asked all rows, over a shelf whose call of this number wants memory: the first such command, or its history. How
/// often memory ran out in a command is added to the count.
#[tactic(auto, using(live_session::proofs::StandingAtTurn::free_at, live_session::proofs::SettledAtTurn::own_open))]
pub fn run<R: Threads + Wait + Sync>(
    rt: &R,
    alloc: Global,
    dry: u64,
    refusals: &mut u64,
) -> Result<Option<&'static [u8]>, NoMemory> {
    let mut session = Session::new(alloc, LIMITS)?;
    let book = Book::new(alloc, 2, 1, LIMITS.rooms)?;
    let (turn, mut pass) = Turn::make(rt, alloc, book)?;
    let mut shelf = DryShelf {
        shelf: MemShelf::new(alloc, texts(alloc)?, Vec::new(alloc)),
        calls: 0,
        dry,
    };
    let wrong = first_wrong(
        rt,
        alloc,
        &mut session,
        &turn,
        &mut pass,
        &mut shelf,
        refusals,
    )?;
    close(rt, &turn, &mut pass);
    let history = Book::into_history(turn.finish(rt, pass));
    if wrong.is_none() && !(is_right(alloc, &history)? && is_over(&history)) {
        return Ok(Some(b"the history"));
    }
    Ok(wrong)
}
