// A session carries out a script in turns of its book.
ghost use Rattle.std.specs.Prelude.{◌≡◌, true, None, IfSome, IfOk};
ghost use Rattle.command_read.specs.Readers.{stopped};
ghost use Rattle.book_turn.specs.Passes.{IsOf, known};
ghost use Rattle.book_turn.specs.Turns.{GoesOn};
ghost use Rattle.live_session.specs.AtTurn.{StandsAt};

use book_turn::{SessionPass, Turn};
use checkpoint_book::book::Book;
use command_read::{ReadEnd, Reader};
use cycle_eval::Design;
use live_session::{Reply, Session};
use ls_port::{MemShelf, OpenGate, Source};
use ls_text::NoMemory;
use std::alloc::Global;
use std::sync::Wait;
use std::thread::Threads;

/// Reads a command and carries it out: its reply, or None where no command comes.
#[tactic(auto, using(live_session::proofs::StandingAtTurn::stands_as, book_turn::proofs::Turns::goes_none))]
fn answer<R: Threads + Wait + Sync, S: Source>(
    rt: &R,
    alloc: Global,
    session: &mut Session,
    reader: &mut Reader,
    turn: &Turn<Book<Design>>,
    pass: &mut SessionPass<Book<Design>>,
    source: &mut S,
    shelf: &mut MemShelf,
) -> Result<Option<Reply>, NoMemory>
    requires going { stopped reader.old ≡ None }
    requires turn { IsOf turn.now pass.old true }
    requires at { StandsAt session.old (known pass.old) }
    ensures going { IfOk result (λ told. IfSome told (λ _. stopped reader.new ≡ None)) }
    ensures turn { IsOf turn.now pass.new true }
    ensures at { StandsAt session.new (known pass.new) }
    ensures goes { GoesOn (known pass.old) (known pass.new) }
{
    match session.read(reader, source) {
        ReadEnd::Command(command) => {
            let reply = session.step(rt, alloc, turn, pass, shelf, &OpenGate, command)?;
            Ok(Some(reply))
        }
        ReadEnd::Refused(fault) => Ok(Some(session.refusal(alloc, &fault)?)),
        _ => Ok(None),
    }
}

/// Carries out so many commands at most, and adds the lines of each.
#[tactic(auto, using(book_turn::proofs::Turns::goes_none, book_turn::proofs::Turns::goes_more))]
pub fn play<R: Threads + Wait + Sync, S: Source>(
    rt: &R,
    alloc: Global,
    session: &mut Session,
    reader: &mut Reader,
    turn: &Turn<Book<Design>>,
    pass: &mut SessionPass<Book<Design>>,
    source: &mut S,
    shelf: &mut MemShelf,
    lines: &mut Vec<u8>,
    most: u32,
) -> Result<(), NoMemory>
    requires going { stopped reader.old ≡ None }
    requires turn { IsOf turn.now pass.old true }
    requires at { StandsAt session.old (known pass.old) }
    ensures turn { IsOf turn.now pass.new true }
    ensures at { StandsAt session.new (known pass.new) }
    ensures goes { GoesOn (known pass.old) (known pass.new) }
{
    if most == 0 {
        return Ok(());
    }
    match answer(rt, alloc, session, reader, turn, pass, source, shelf)? {
        Some(reply) => {
            lines.extend_from_slice(reply.lines.bytes())?;
            play(
                rt,
                alloc,
                session,
                reader,
                turn,
                pass,
                source,
                shelf,
                lines,
                most - 1,
            )
        }
        None => Ok(()),
    }
}
