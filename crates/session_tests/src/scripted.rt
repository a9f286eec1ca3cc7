// A session carries out a script beside workers.
ghost use Rattle.std.specs.Prelude.{◌≡◌, ◌≤◌, ◌^◌, true, None};
ghost use Rattle.book_turn.specs.Passes.{IsOf, known};
ghost use Rattle.book_turn.specs.Turns.{GoesOn};
ghost use Rattle.command_read.specs.Readers.{stopped};
ghost use Rattle.live_session.specs.AtTurn.{StandsAt};
ghost use Rattle.segment_verify.specs.Workers.{IsFree};
ghost use Rattle.livesim.specs.Lent.{IsAtWork};

use crate::lending::beside;
use crate::played::Played;
use crate::playing::play;
use crate::ran::Ran;
use book_history::history::History;
use book_turn::{SessionPass, Turn};
use checkpoint_book::book::Book;
use command_read::Reader;
use cycle_eval::Design;
use history_replay::{is_over, is_right};
use live_session::{Limits, Session};
use ls_port::{Gate, MemShelf, Source};
use ls_text::NoMemory;
use std::alloc::Global;
use std::sync::Wait;
use std::test::Fail;
use std::thread::Threads;
use worker_scope::Worked;

/// How many commands are carried out at most.
const MOST: u32 = 64;

/// Carries out the script.
fn play_all<R: Threads + Wait + Sync, S: Source>(
    rt: &R,
    alloc: Global,
    session: &mut Session,
    reader: &mut Reader,
    turn: &Turn<Book<Design>>,
    pass: &mut SessionPass<Book<Design>>,
    source: &mut S,
    shelf: &mut MemShelf,
) -> Result<Played, NoMemory>
    requires going { stopped reader.old ≡ None }
    requires turn { IsOf turn.now pass.old true }
    requires at { StandsAt session.old (known pass.old) }
    ensures turn { IsOf turn.now pass.new true }
    ensures at { StandsAt session.new (known pass.new) }
    ensures goes { GoesOn (known pass.old) (known pass.new) }
{
    let mut lines = Vec::new(alloc);
    play(
        rt, alloc, session, reader, turn, pass, source, shelf, &mut lines, MOST,
    )?;
    let answers = shelf.answers().len();
    Ok(Played { lines, answers })
}

// What is left of the book once nobody has it.
fn history_of<R: Wait>(
    rt: &R,
    turn: Turn<Book<Design>>,
    pass: SessionPass<Book<Design>>,
) -> History<Design>
    requires turn { IsOf turn pass true }
    requires free { IsFree (known pass) }
{
    Book::into_history(turn.finish(rt, pass))
}

// What comes of a script, and of its book, which has a mark at each fourth cycle; an edit is simulated from the last one that is a cycle back.
fn run<R: Threads + Wait + Sync, G: Gate, S: Source>(
    rt: &R,
    alloc: Global,
    limits: Limits,
    workers: u16,
    gate: &G,
    source: &mut S,
    shelf: &mut MemShelf,
) -> Result<Ran, NoMemory>
    requires { limits.cycles ≤ 2 ^ 40 }
{
    let mut session = Session::new(alloc, limits)?;
    let mut reader = Reader::new(alloc)?;
    let book = Book::new(alloc, 4, 1, limits.rooms)?;
    let (turn, pass) = Turn::make(rt, alloc, book)?;
    let mut script = |turn: &Turn<Book<Design>>, pass: &mut SessionPass<Book<Design>>| -> Result<
        Played,
        NoMemory,
    >
        requires turn { IsOf turn.now pass.old true }
        requires going { stopped reader ≡ None }
        requires at { StandsAt session (known pass.old) }
        ensures turn { IsAtWork turn.now pass.new }
        ensures goes { GoesOn (known pass.old) (known pass.new) }
        ensures at { StandsAt session.exit (known pass.new) }
    {
        play_all(
            rt,
            alloc,
            &mut session,
            &mut reader,
            turn,
            pass,
            source,
            shelf,
        )
    };
    let Worked {
        pass,
        answer: played,
        started,
        refusal: _,
    } = beside(rt, alloc, &turn, pass, workers, gate, &mut script);
    Ok(Ran {
        played,
        history: history_of(rt, turn, pass),
        started,
    })
}

/// What comes of a script of at most 64 commands in a session with these limits, over this shelf, beside so many workers, with a history that is right and
/// over.
pub fn played<R: Threads + Wait + Sync, G: Gate, S: Source + Drop>(
    rt: &R,
    alloc: Global,
    limits: Limits,
    workers: u16,
    gate: &G,
    mut source: S,
    mut shelf: MemShelf,
) -> Result<Played, Fail>
    requires { limits.cycles ≤ 2 ^ 40 }
{
    let Ran {
        played,
        history,
        started,
    } = run(rt, alloc, limits, workers, gate, &mut source, &mut shelf)?;
    if started != workers {
        return Err("a worker was not started")?;
    }
    if !is_right(alloc, &history)? || !is_over(&history) {
        return Err("the history isn't right, or isn't over")?;
    }
    Ok(played?)
}
