// One turn: a command is read and carried out.
ghost use Rattle.std.specs.Prelude.{◌≡◌, true, None};
ghost use Rattle.command_read.specs.Readers.{stopped};
ghost use Rattle.book_turn.specs.Passes.{IsOf, known};
ghost use Rattle.book_turn.specs.Turns.{GoesOn};
ghost use Rattle.live_session.specs.AtTurn.{StandsAt, log_of};
ghost use Rattle.live_session.specs.Sessions.{limits_of};
ghost use Rattle.livesim.specs.Turns.{IsTurn, source_at, shelf_at, turn_of};

use crate::ending::Ending;
use crate::turn::Turn;
use book_turn::{SessionPass, Turn as BookTurn};
use checkpoint_book::book::Book;
use command_read::{ReadEnd, Reader};
use cycle_eval::Design;
use live_session::{Reply, Session};
use ls_port::{Gate, Shelf, Source};
use ls_text::NoMemory;
use std::alloc::Global;
use std::sync::Wait;
use std::thread::Threads;

// A reply, or the end for want of memory.
fn answered(reply: Result<Reply, NoMemory>) -> Turn
    ensures { result ≡ turn_of reply }
{
    match reply {
        Ok(reply) => Turn::Answered(reply),
        Err(NoMemory) => Turn::Over(Ending::NoMemory),
    }
}

/// Reads a command and carries it out, before more is read.
pub fn turn<R: Threads + Wait + Sync, S: Source, F: Shelf, G: Gate>(
    rt: &R,
    alloc: Global,
    session: &mut Session,
    reader: &mut Reader,
    book_turn: &BookTurn<Book<Design>>,
    pass: &mut SessionPass<Book<Design>>,
    source: &mut S,
    shelf: &mut F,
    gate: &G,
) -> Turn
    requires going { stopped reader.old ≡ None }
    requires turn { IsOf book_turn.now pass.old true }
    requires at { StandsAt session.old (known pass.old) }
    ensures turned { IsTurn (source_at (S.left source.old) (S.faults source.old)) (source_at (S.left source.new) (S.faults source.new))
        (shelf_at (F.answers shelf.old) (F.faults shelf.old)) (shelf_at (F.answers shelf.new) (F.faults shelf.new))
        reader.old reader.new session.old session.new (log_of (known pass.old)) (log_of (known pass.new)) result }
    ensures limits { limits_of session.new ≡ limits_of session.old }
    ensures turn { IsOf book_turn.now pass.new true }
    ensures at { StandsAt session.new (known pass.new) }
    ensures goes { GoesOn (known pass.old) (known pass.new) }
{
    match session.read(reader, source) {
        ReadEnd::Command(command) => {
            answered(session.step(rt, alloc, book_turn, pass, shelf, gate, command))
        },
        ReadEnd::Refused(fault) => answered(session.refusal(alloc, &fault)),
        ReadEnd::End => Turn::Over(Ending::Whole),
        ReadEnd::Fault => Turn::Over(Ending::Failed),
        ReadEnd::TooMuch => Turn::Over(Ending::TooMuch),
        ReadEnd::NoMemory => Turn::Over(Ending::NoMemory),
    }
}
