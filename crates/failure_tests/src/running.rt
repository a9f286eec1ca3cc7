// Runs of the program.
use book_history::entry::Entry;
use book_history::history::History;
use cycle_eval::Design;
use history_replay::{is_over, is_right};
use livesim::{Outcome, live_run};
use ls_port::{OpenGate, Shelf, Sink, Source};
use ls_text::NoMemory;
use std::alloc::Global;
use std::sync::Wait;
use std::test::Fail;
use std::thread::Threads;

/// The words of a command line without workers, with an interval of 2 and a lookback of 1.
fn words_of(alloc: Global) -> Result<Vec<String>, NoMemory> {
    let mut words = Vec::new(alloc);
    for word in [
        "livesim",
        "--interval",
        "2",
        "--lookback",
        "1",
        "--workers",
        "0",
    ] {
        words.push(String::from_str(alloc, word)?)?;
    }
    Ok(words)
}

/// A run without workers, whose history is right and over.
pub fn ran<R: Threads + Wait + Sync, S: Source, K: Sink, F: Shelf>(
    rt: &R,
    alloc: Global,
    source: &mut S,
    sink: &mut K,
    shelf: &mut F,
) -> Result<Outcome, Fail> {
    let words = words_of(alloc)?;
    let outcome = live_run(rt, alloc, &words, source, sink, shelf, &OpenGate);
    if !is_right(alloc, &outcome.history)? || !is_over(&outcome.history) {
        return Err("the history isn't right, or isn't over")?;
    }
    Ok(outcome)
}

/// The entries of a history, in order.
pub fn recorded(alloc: Global, history: &History<Design>) -> Result<Vec<Entry>, NoMemory> {
    Ok(Vec::from_slice(alloc, history.entries())?)
}
