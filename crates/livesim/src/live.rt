// The top call.
ghost use Rattle.std.specs.Prelude.{◌≡◌, ◌≢◌, ◌⊎◌, ◌<◌, ◌≤◌, ℕ, List, [], ◌∷◌, ◌++◌, length, map, string_bytes, Bool, true, Some, None};
ghost use Rattle.ls_port.specs.Causes.{Rose};
ghost use Rattle.live_session.specs.Logs.{IsLegal};
ghost use Rattle.live_options.specs.Words.{OptionsOf, options, options_of};
ghost use Rattle.book_history.specs.Owned.{AllOwned};
ghost use Rattle.book_turn.specs.Passes.{IsOf, known};
ghost use Rattle.book_turn.specs.Rule.{Learned};
ghost use Rattle.book_turn.specs.Turns.{GoesOn};
ghost use Rattle.segment_verify.specs.Workers.{IsFree};
ghost use Rattle.load_maker.specs.Scripts.{script_of};
ghost use Rattle.livesim.specs.Lent.{IsAtWork};
ghost use Rattle.livesim.specs.Runs.{HasRun, IsComplete, Lived};
ghost use Rattle.livesim.specs.Settings.{settings};
ghost use Rattle.livesim.specs.Turns.{shelf_at, source_at};
ghost use Rattle.livesim.specs.Working.{IsReadyAt, Works, sink_at};

use crate::carrying::carry_out;
use crate::lending::beside_workers;
use crate::outcome::Outcome;
use book_history::history::History;
use book_history::rooms::Rooms;
use book_turn::{SessionPass, Turn as BookTurn};
use checkpoint_book::book::Book;
use command_read::Reader;
use cycle_eval::Design;
use live_options::laws::options_are_within;
use live_options::{Options, read_options};
use live_session::{Limits, Session};
use load_maker::make;
use ls_port::{Gate, Shelf, Sink, SolidSource, Source};
use ls_text::NoMemory;
use std::alloc::Global;
use std::sync::Wait;
use std::thread::Threads;
use worker_scope::Worked;

/// What the program's sessions may use: 2^40 cycles, 16,777,216 names set in the record, and the rooms of the history.
const LIMITS: Limits = Limits {
    cycles: 1_099_511_627_776,
    stimulus: 16_777_216,
    rooms: Rooms {
        session: 1_048_576,
        workers: 3_145_728,
    },
};

/// The interval of marks and the lookback of an edit where no words say them, in cycles.
const INTERVAL: u64 = 10_000;

const LOOKBACK: u64 = 10_000;

// A run that ended before anything was touched.
fn stopped(alloc: Global, status: u8, interval: u64, lookback: u64) -> Outcome
    ensures status { result.status ≡ status }
    ensures taken { result.taken ≡ 0 }
    ensures interval { result.history.settings.interval ≡ interval }
    ensures lookback { result.history.settings.lookback ≡ lookback }
    ensures rooms { result.history.settings.rooms ≡ record { session = 1048576; workers = 3145728 } }
    ensures events { result.history.events ≡ [] }
{
    Outcome {
        status,
        history: History::empty(alloc, interval, lookback, LIMITS.rooms),
        taken: 0,
    }
}

// The history of the book of a turn, which is closed, and which nobody else has.
fn history_of<R: Wait>(
    rt: &R,
    turn: BookTurn<Book<Design>>,
    pass: SessionPass<Book<Design>>,
) -> History<Design>
    requires turn { IsOf turn pass true }
    requires free { IsFree (known pass) }
    ensures learned { Learned (known pass) result }
    ensures alone { (known pass).alone ≡ true → result.events ≡ (known pass).seen }
    ensures legal { IsLegal result }
{
    let history = Book::into_history(turn.finish(rt, pass));
    history.legal();
    history
}

// What words that are taken ask for, beside a book of its own.
fn run<R: Threads + Wait + Sync, S: Source, K: Sink, F: Shelf, G: Gate>(
    rt: &R,
    alloc: Global,
    options: Options,
    source: &mut S,
    sink: &mut K,
    shelf: &mut F,
    gate: &G,
) -> Outcome
    requires interval { 1 ≤ options.interval }
    ensures lived { (bytes : List ℕ) × (ended : Bool) × (length bytes ≡ result.taken)
        × Lived (settings (options_of options)) (S.left source.old) (S.left source.new) (K.written sink.old) (K.written sink.new)
        (F.answers shelf.old) (F.answers shelf.new) (F.faults shelf.old) (F.faults shelf.new) bytes ended result.status result.history }
    ensures alone { options.workers ≡ 0 → AllOwned true result.history.events }
    ensures read_fault { result.status ≡ 3 → Rose (S.faults source.old) (S.faults source.new) }
    ensures write_fault { result.status ≡ 4 → Rose (K.faults sink.old) (K.faults sink.new) }
    ensures known { result.status ≤ 6 }
    ensures words { result.status ≢ 2 }
    ensures source_once { (S.faults source.new ≡ S.faults source.old) ⊎ Rose (S.faults source.old) (S.faults source.new) }
    ensures sink_once { (K.faults sink.new ≡ K.faults sink.old) ⊎ Rose (K.faults sink.old) (K.faults sink.new) }
    ensures source_kept { result.status ≢ 3 → S.faults source.new ≡ S.faults source.old }
    ensures sink_kept { result.status ≢ 4 → K.faults sink.new ≡ K.faults sink.old }
    ensures few { result.taken ≤ 67108865 }
    ensures much { result.status ≡ 6 → 67108864 < result.taken }
{
    let (Ok(mut reader), Ok(mut session), Ok(book)) = (
        Reader::new(alloc),
        Session::new(alloc, LIMITS),
        Book::new(alloc, options.interval, options.lookback, LIMITS.rooms),
    ) else {
        return stopped(alloc, 5, options.interval, options.lookback);
    };
    let Ok((turn, pass)) = BookTurn::make(rt, alloc, book) else {
        return stopped(alloc, 5, options.interval, options.lookback);
    };
    let mut script = |turn: &BookTurn<Book<Design>>, pass: &mut SessionPass<Book<Design>>| -> u8
        requires turn { IsOf turn.now pass.old true }
        requires ready { IsReadyAt session reader (known pass.old) }
        ensures turn { IsAtWork turn.now pass.new }
        ensures goes { GoesOn (known pass.old) (known pass.new) }
        ensures works { Works (source_at (S.left source.entry.now) (S.faults source.entry.now)) (source_at (S.left source.exit.now) (S.faults source.exit.now))
            (sink_at (K.written sink.entry.now) (K.faults sink.entry.now)) (sink_at (K.written sink.exit.now) (K.faults sink.exit.now))
            (shelf_at (F.answers shelf.entry.now) (F.faults shelf.entry.now)) (shelf_at (F.answers shelf.exit.now) (F.faults shelf.exit.now))
            reader.exit (known pass.old) (known pass.new) result }
    {
        carry_out(
            rt,
            alloc,
            &mut session,
            &mut reader,
            turn,
            pass,
            source,
            sink,
            shelf,
            gate,
        )
    };
    let Worked {
        pass,
        answer: status,
        started: _,
        refusal: _,
    } = beside_workers(
        rt,
        alloc,
        &turn,
        pass,
        u16::from(options.workers),
        gate,
        &mut script,
    );
    Outcome {
        status,
        history: history_of(rt, turn, pass),
        taken: reader.taken(),
    }
}

// What such words ask for, over the script of so many stages, which is made and read in place of a source.
fn run_made<R: Threads + Wait + Sync, K: Sink, F: Shelf, G: Gate>(
    rt: &R,
    alloc: Global,
    options: Options,
    stages: u32,
    sink: &mut K,
    shelf: &mut F,
    gate: &G,
) -> Outcome
    requires interval { 1 ≤ options.interval }
    requires some { 1 ≤ stages }
    requires few { stages ≤ 4096 }
    ensures made { HasRun (settings (options_of options)) (K.written sink.old) (K.written sink.new) (F.answers shelf.old) (F.answers shelf.new)
        (F.faults shelf.old) (F.faults shelf.new) (script_of stages) true result.status result.history }
    ensures taken { result.taken ≡ 0 }
    ensures alone { options.workers ≡ 0 → AllOwned true result.history.events }
    ensures write_fault { result.status ≡ 4 → Rose (K.faults sink.old) (K.faults sink.new) }
    ensures known { result.status ≤ 6 }
    ensures words { result.status ≢ 2 }
    ensures no_read_fault { result.status ≢ 3 }
    ensures short { result.status ≢ 6 }
    ensures sink_once { (K.faults sink.new ≡ K.faults sink.old) ⊎ Rose (K.faults sink.old) (K.faults sink.new) }
    ensures sink_kept { result.status ≢ 4 → K.faults sink.new ≡ K.faults sink.old }
{
    let Ok(script) = make(alloc, stages) else {
        return stopped(alloc, 5, options.interval, options.lookback);
    };
    let mut source = SolidSource::new(script);
    let mut ran = run(rt, alloc, options, &mut source, sink, shelf, gate);
    ran.taken = 0;
    ran
}

/// Reads a script, carries out its commands and writes their lines, while workers verify older stretches of the book; the gate is asked before each
/// verification and each install. The book is closed and the workers are joined at the end, whatever ended the run, and the history is handed back.
///
/// The words are those of the command line, the program's name first. A command is carried out and its lines are written as soon as its last line is
/// read, before more is read. It ends at the end of the input, at `quit`, at a fault of the source or the sink, for want of memory, or one byte
/// above 67,108,864. Where the words ask for a load, the script of so many stages is made and carried out in place of the source, which isn't read.
pub fn live_run<R: Threads + Wait + Sync, S: Source, K: Sink, F: Shelf, G: Gate>(
    rt: &R,
    alloc: Global,
    words: &[String],
    source: &mut S,
    sink: &mut K,
    shelf: &mut F,
    gate: &G,
) -> Outcome
    // Status 2 comes only where the words ask for no options, and then no other status does, but 5 where memory runs out as they are read; and
    // nothing is touched.
    ensures words { result.status ≡ 2 → options (map string_bytes words.now) ≡ None }
    ensures faulty { options (map string_bytes words.now) ≡ None → (result.status ≡ 2) ⊎ (result.status ≡ 5) }
    ensures untouched { options (map string_bytes words.now) ≡ None
        → (result.taken ≡ 0) × (source.new ≡ source.old) × (sink.new ≡ sink.old) × (shelf.new ≡ shelf.old)
        × (result.history.events ≡ []) }

    // Where they ask for options and no load: the bytes taken, what was asked of the shelf, the lines written, and what the status says of them.
    ensures lived { (o : OptionsOf) → options (map string_bytes words.now) ≡ Some o → o.load ≡ None
        → (bytes : List ℕ) × (ended : Bool) × (length bytes ≡ result.taken)
        × Lived (settings o) (S.left source.old) (S.left source.new) (K.written sink.old) (K.written sink.new)
        (F.answers shelf.old) (F.answers shelf.new) (F.faults shelf.old) (F.faults shelf.new) bytes ended result.status result.history }

    // Where they ask for a load: the same of the whole script of so many stages. The source is as it was, and nothing was taken.
    ensures made { (o : OptionsOf) (stages : ℕ) → options (map string_bytes words.now) ≡ Some o → o.load ≡ Some stages
        → (result.taken ≡ 0) × (source.new ≡ source.old)
        × HasRun (settings o) (K.written sink.old) (K.written sink.new) (F.answers shelf.old) (F.answers shelf.new)
        (F.faults shelf.old) (F.faults shelf.new) (script_of stages) true result.status result.history }

    // Without workers no entry is a worker's.
    ensures alone { (o : OptionsOf) → options (map string_bytes words.now) ≡ Some o → o.workers ≡ 0 → AllOwned true result.history.events }

    // The causes of 3 and 4: the count rose, and by one.
    ensures read_fault { result.status ≡ 3 → Rose (S.faults source.old) (S.faults source.new) }
    ensures write_fault { result.status ≡ 4 → Rose (K.faults sink.old) (K.faults sink.new) }
    ensures known { result.status ≤ 6 }

    // And where the count rose, no other status hides it; nor does it rise twice.
    ensures source_once { (S.faults source.new ≡ S.faults source.old) ⊎ Rose (S.faults source.old) (S.faults source.new) }
    ensures sink_once { (K.faults sink.new ≡ K.faults sink.old) ⊎ Rose (K.faults sink.old) (K.faults sink.new) }
    ensures source_kept { result.status ≢ 3 → S.faults source.new ≡ S.faults source.old }
    ensures sink_kept { result.status ≢ 4 → K.faults sink.new ≡ K.faults sink.old }

    // At most one byte above the limit is taken.
    ensures few { result.taken ≤ 67108865 }

    // Where nothing outside failed and the script isn't too long, the commands were carried out, or memory ran out.
    ensures complete { (options (map string_bytes words.now) ≡ None → ⊥) → (Rose (S.faults source.old) (S.faults source.new) → ⊥)
        → (Rose (K.faults sink.old) (K.faults sink.new) → ⊥) → result.taken ≤ 67108864 → IsComplete result.status }
{
    options_are_within();
    match read_options(alloc, words) {
        Err(NoMemory) => stopped(alloc, 5, INTERVAL, LOOKBACK),
        Ok(None) => stopped(alloc, 2, INTERVAL, LOOKBACK),
        Ok(Some(options)) => match options.load {
            None => run(rt, alloc, options, source, sink, shelf, gate),
            Some(stages) => run_made(rt, alloc, options, stages, sink, shelf, gate),
        },
    }
}
