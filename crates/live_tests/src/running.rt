// Runs of the program, and plain replays of their histories.
use crate::held::Held;
use crate::held_sink::HeldSink;
use crate::held_source::HeldSource;
use crate::ran::Ran;
use crate::replay::Replay;
use book_history::entry::Entry;
use book_history::history::History;
use cycle_eval::Design;
use livesim::{Outcome, live_run};
use ls_port::{Gate, MemSink, MemSource, SolidShelf, SolidSink, SolidSource};
use ls_text::{NameId, NoMemory};
use std::alloc::Global;
use std::sync::Wait;
use std::thread::Threads;
use stimulus::Row;
use test_gates::HoldingGate;

/// The interval and the lookback of all runs.
const INTERVAL: u64 = 2;

const LOOKBACK: u64 = 1;

/// How many names the values of a row are looked for under: more than the table of names of a test's script has.
const NAMES: u64 = 1024;

/// The words of a command line with the interval and the lookback, and these.
pub fn words_of(alloc: Global, given: &str) -> Result<Vec<String>, NoMemory> {
    let mut words = Vec::new(alloc);
    for word in ["livesim", "--interval", "2", "--lookback", "1"] {
        words.push(String::from_str(alloc, word)?)?;
    }
    for word in given.split_whitespace() {
        words.push(String::from_str(alloc, word)?)?;
    }
    Ok(words)
}

/// A script under these words, over an empty shelf.
pub fn ran<R: Threads + Wait + Sync, G: Gate>(
    rt: &R,
    alloc: Global,
    given: &str,
    script: Vec<u8>,
    gate: &G,
) -> Result<Ran, NoMemory> {
    let words = words_of(alloc, given)?;
    let mut source = SolidSource::new(script);
    let mut sink = SolidSink::new(alloc);
    let mut shelf = SolidShelf::new(alloc, Vec::new(alloc));
    let outcome = live_run(rt, alloc, &words, &mut source, &mut sink, &mut shelf, gate);
    ran_of(alloc, &outcome, sink.bytes())
}

/// A script, and what follows once workers hold the gate's tickets, whose read and write of these numbers, from 0, fail; the gate lets go where it
/// ends or fails, or before a reply that begins so.
pub fn ran_held<R: Threads + Wait + Sync>(
    rt: &R,
    alloc: Global,
    given: &str,
    script: Vec<u8>,
    then: &Held<'_>,
    gate: &HoldingGate,
) -> Result<Ran, NoMemory> {
    ran_before(rt, alloc, given, script, then, gate, gate)
}

/// The same, where the run asks a gate of its own.
pub fn ran_before<R: Threads + Wait + Sync, G: Gate>(
    rt: &R,
    alloc: Global,
    given: &str,
    script: Vec<u8>,
    then: &Held<'_>,
    holding: &HoldingGate,
    gate: &G,
) -> Result<Ran, NoMemory> {
    let words = words_of(alloc, given)?;
    let mut source = HeldSource {
        script: SolidSource::new(script),
        gate: holding,
        end: MemSource::new(
            Vec::from_slice(alloc, then.script)?,
            vec![in alloc; then.read]?,
        ),
    };
    let mut sink = HeldSink {
        sink: MemSink::new(alloc, vec![in alloc; then.write]?),
        gate: holding,
        at: then.at,
    };
    let mut shelf = SolidShelf::new(alloc, Vec::new(alloc));
    let outcome = live_run(rt, alloc, &words, &mut source, &mut sink, &mut shelf, gate);
    ran_of(alloc, &outcome, sink.sink.bytes())
}

/// What comes of a run that ended so and wrote these lines.
pub fn ran_of(alloc: Global, outcome: &Outcome, lines: &[u8]) -> Result<Ran, NoMemory> {
    Ok(Ran {
        status: outcome.status,
        lines: Vec::from_slice(alloc, lines)?,
        entries: entries_of(alloc, &outcome.history)?,
        inputs: inputs_of(alloc, &outcome.history)?,
    })
}

/// The entries of a history.
fn entries_of(alloc: Global, history: &History<Design>) -> Result<Vec<Entry>, NoMemory> {
    Ok(Vec::from_slice(alloc, history.entries())?)
}

/// The value of the one input that a row sets, or 0.
fn value_of(row: &Row) -> u8 {
    for name in 0..NAMES {
        let value = row.get(NameId(name));
        if value > 0 && value < 256 {
            return value as u8;
        }
    }
    0
}

/// The input of each cycle.
fn inputs_of(alloc: Global, history: &History<Design>) -> Result<Vec<u8>, NoMemory> {
    let mut inputs = Vec::new(alloc);
    for run in history.runs() {
        let value = value_of(&run.row);
        for _ in run.start..run.end {
            inputs.push(value)?;
        }
    }
    Ok(inputs)
}

/// What the whole history comes to, or None where an entry doesn't stand right in it, or a joined link isn't true behind one.
pub fn replayed(alloc: Global, ran: &Ran, adds: Vec<u8>) -> Result<Option<Replay>, NoMemory> {
    let inputs = Vec::from_slice(alloc, &ran.inputs)?;
    let mut replay = Replay::new(alloc, INTERVAL, LOOKBACK, adds, inputs);
    for entry in &ran.entries {
        if !replay.take(*entry) {
            return Ok(None);
        }
    }
    Ok(Some(replay))
}
