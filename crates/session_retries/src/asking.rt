// A session is asked one command, and asked again where memory runs out in it.
ghost use Rattle.std.specs.Prelude.{◌≡◌, true};
ghost use Rattle.book_turn.specs.Passes.{IsOf, known};
ghost use Rattle.live_session.specs.AtTurn.{StandsAt};

use crate::row::Row;
use book_turn::{SessionPass, Turn};
use checkpoint_book::book::Book;
use command_read::{ReadEnd, Reader};
use cycle_eval::Design;
use live_session::Session;
use ls_port::{OpenGate, Shelf, SolidSource};
use ls_text::{NoMemory, TextBytes};
use std::alloc::Global;
use std::sync::Wait;
use std::thread::Threads;

/// The lines that answer a command, none where it isn't read as one, or None where memory runs out as it is carried out, which is counted. The error is that
/// it runs out outside of that.
#[tactic(auto, using(live_session::proofs::StandingAtTurn::stands_as))]
fn ask<R: Threads + Wait + Sync, F: Shelf>(
    rt: &R,
    alloc: Global,
    session: &mut Session,
    turn: &Turn<Book<Design>>,
    pass: &mut SessionPass<Book<Design>>,
    shelf: &mut F,
    command: &[u8],
    refusals: &mut u64,
) -> Result<Option<TextBytes>, NoMemory>
    requires turn { IsOf turn.now pass.old true }
    requires at { StandsAt session.old (known pass.old) }
    ensures turn { IsOf turn.now pass.new true }
    ensures at { StandsAt session.new (known pass.new) }
{
    let mut reader = Reader::new(alloc)?;
    let mut source = SolidSource::new(Vec::from_slice(alloc, command)?);
    match session.read(&mut reader, &mut source) {
        ReadEnd::Command(command) => {
            match session.step(rt, alloc, turn, pass, shelf, &OpenGate, command) {
                Ok(reply) => Ok(Some(reply.lines)),
                Err(NoMemory) => {
                    *refusals = refusals.saturating_add(1);
                    Ok(None)
                }
            }
        }
        ReadEnd::Refused(fault) => Ok(Some(session.refusal(alloc, &fault)?.lines)),
        ReadEnd::NoMemory => Err(NoMemory),
        _ => Ok(Some(TextBytes::new(Vec::new(alloc)))),
    }
}

/// The lines that answer a command that changes nothing, asked so often at most: none where memory runs out in it each time.
fn answered<R: Threads + Wait + Sync, F: Shelf>(
    rt: &R,
    alloc: Global,
    session: &mut Session,
    turn: &Turn<Book<Design>>,
    pass: &mut SessionPass<Book<Design>>,
    shelf: &mut F,
    command: &[u8],
    refusals: &mut u64,
    tries: u32,
) -> Result<TextBytes, NoMemory>
    requires turn { IsOf turn.now pass.old true }
    requires at { StandsAt session.old (known pass.old) }
    ensures turn { IsOf turn.now pass.new true }
    ensures at { StandsAt session.new (known pass.new) }
{
    if tries == 0 {
        return Ok(TextBytes::new(Vec::new(alloc)));
    }
    match ask(rt, alloc, session, turn, pass, shelf, command, refusals)? {
        Some(lines) => Ok(lines),
        None => answered(
            rt,
            alloc,
            session,
            turn,
            pass,
            shelf,
            command,
            refusals,
            tries - 1,
        ),
    }
}

/// Where a session stands that was asked a command.
#[derive(Clone, Copy, Debug, PartialEq, Eq)]
enum Place {
    Before,
    Between,
    Behind,
    Elsewhere,
}

/// Where a session stands that answers `status` and `show` so.
fn place_of(before: &Row, row: &Row, status: &[u8], show: &[u8]) -> Place {
    if status == row.status && show == row.show {
        return Place::Behind;
    }
    if status == row.status && row.between.iter().any(|other| *other == show) {
        return Place::Between;
    }
    if status == before.status && show == before.show {
        return Place::Before;
    }
    Place::Elsewhere
}

/// Asks a command, so often at most where memory runs out in it and it wasn't carried out, or may be asked again: whether it is answered by its lines or they
/// were lost, and the session always stands where it may.
pub fn carry<R: Threads + Wait + Sync, F: Shelf>(
    rt: &R,
    alloc: Global,
    session: &mut Session,
    turn: &Turn<Book<Design>>,
    pass: &mut SessionPass<Book<Design>>,
    shelf: &mut F,
    before: &Row,
    row: &Row,
    refusals: &mut u64,
    tries: u32,
) -> Result<bool, NoMemory>
    requires turn { IsOf turn.now pass.old true }
    requires at { StandsAt session.old (known pass.old) }
    ensures turn { IsOf turn.now pass.new true }
    ensures at { StandsAt session.new (known pass.new) }
{
    if tries == 0 {
        return Ok(false);
    }
    let told = ask(rt, alloc, session, turn, pass, shelf, row.command, refusals)?;
    let status = answered(
        rt,
        alloc,
        session,
        turn,
        pass,
        shelf,
        b"status\n",
        refusals,
        tries,
    )?;
    let show = answered(
        rt, alloc, session, turn, pass, shelf, b"show\n", refusals, tries,
    )?;
    let place = place_of(before, row, status.bytes(), show.bytes());
    match (told, place) {
        (Some(lines), Place::Behind) => return Ok(lines.bytes() == row.reply),
        (Some(_), _) => return Ok(false),
        (None, Place::Elsewhere) => return Ok(false),
        (None, Place::Behind) => {
            if !row.repeats {
                return Ok(true);
            }
        }
        (None, _) => {}
    }
    carry(
        rt,
        alloc,
        session,
        turn,
        pass,
        shelf,
        before,
        row,
        refusals,
        tries - 1,
    )
}
