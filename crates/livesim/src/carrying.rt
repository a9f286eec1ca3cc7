// Command after command: each is read, carried out and answered.
ghost use Rattle.std.specs.Prelude.{◌≡◌, ◌≢◌, ◌⊎◌, ◌<◌, ◌≤◌, ℕ, Bool, List, length, true};
ghost use Rattle.ls_port.specs.Causes.{Rose};
ghost use Rattle.book_turn.specs.Passes.{IsOf, known};
ghost use Rattle.book_turn.specs.Turns.{GoesOn};
ghost use Rattle.command_read.specs.Readers.{count_taken};
ghost use Rattle.live_options.specs.Words.{OptionsOf};
ghost use Rattle.live_session.specs.AtTurn.{StandsAt, log_of};
ghost use Rattle.live_session.specs.Logs.{IsLegal, Log};
ghost use Rattle.livesim.specs.Endings.{status_of};
ghost use Rattle.livesim.specs.Histories.{EndsFrom};
ghost use Rattle.livesim.specs.Runs.{HasSettings, Lived};
ghost use Rattle.livesim.specs.Settings.{settings};
ghost use Rattle.livesim.specs.Working.{IsReadyAt};

use crate::ending::Ending;
use crate::turn::Turn;
use crate::turning::turn;
use crate::writing::write_all;
use book_turn::{SessionPass, Turn as BookTurn};
use checkpoint_book::book::Book;
use command_read::Reader;
use cycle_eval::Design;
use live_session::Session;
use ls_port::{Gate, Shelf, Sink, SinkRefusal, Source};
use std::alloc::Global;
use std::sync::Wait;
use std::thread::Threads;

// The status of a run whose lines were all written, by whether a command was refused.
fn status_of(ending: Ending, refused: bool) -> u8
    ensures { result ≡ status_of ending refused }
{
    match ending {
        Ending::Whole => u8::from(refused),
        Ending::Failed => 3,
        Ending::NoMemory => 5,
        Ending::TooMuch => 6,
    }
}

/// Command after command, each with its lines written before more is read: the status. The history that the book comes back with, which others may have
/// gone on with, is known to be legal where it is handed out, so that is a premise here.
pub fn carry_out<R: Threads + Wait + Sync, S: Source, K: Sink, F: Shelf, G: Gate>(
    rt: &R,
    alloc: Global,
    session: &mut Session,
    reader: &mut Reader,
    book_turn: &BookTurn<Book<Design>>,
    pass: &mut SessionPass<Book<Design>>,
    source: &mut S,
    sink: &mut K,
    shelf: &mut F,
    gate: &G,
) -> u8
    requires turn { IsOf book_turn.now pass.old true }
    requires ready { IsReadyAt session.old reader.old (known pass.old) }
    ensures lived { (o : OptionsOf) (h : Log) → HasSettings (settings o) (log_of (known pass.old)) → EndsFrom (log_of (known pass.new)) h → IsLegal h
        → (bytes : List ℕ) × (ended : Bool) × (length bytes ≡ count_taken reader.new)
        × Lived (settings o) (S.left source.old) (S.left source.new) (K.written sink.old) (K.written sink.new)
        (F.answers shelf.old) (F.answers shelf.new) (F.faults shelf.old) (F.faults shelf.new) bytes ended result h }
    ensures turn { IsOf book_turn.now pass.new true }
    ensures at { StandsAt session.new (known pass.new) }
    ensures goes { GoesOn (known pass.old) (known pass.new) }
    ensures read_fault { result ≡ 3 → Rose (S.faults source.old) (S.faults source.new) }
    ensures write_fault { result ≡ 4 → Rose (K.faults sink.old) (K.faults sink.new) }
    ensures known { result ≤ 6 }
    ensures words { result ≢ 2 }
    ensures source_once { (S.faults source.new ≡ S.faults source.old) ⊎ Rose (S.faults source.old) (S.faults source.new) }
    ensures sink_once { (K.faults sink.new ≡ K.faults sink.old) ⊎ Rose (K.faults sink.old) (K.faults sink.new) }
    ensures source_kept { result ≢ 3 → S.faults source.new ≡ S.faults source.old }
    ensures sink_kept { result ≢ 4 → K.faults sink.new ≡ K.faults sink.old }
    ensures few { count_taken reader.new ≤ 67108865 }
    ensures much { result ≡ 6 → 67108864 < count_taken reader.new }
{
    let mut refused = false;
    'commands: loop {
        let reply = match turn(
            rt, alloc, session, reader, book_turn, pass, source, shelf, gate,
        ) {
            Turn::Answered(reply) => reply,
            Turn::Over(ending) => return status_of(ending, refused),
        };
        match write_all(sink, reply.lines.bytes()) {
            Ok(()) => {}
            Err(SinkRefusal::Failed) => return 4,
            Err(SinkRefusal::NoMemory) => return 5,
        }
        refused = refused || reply.refused;
        if reply.quit {
            return status_of(Ending::Whole, refused);
        }
    }
}
