// Histories that come back of runs, beside the lines that were written.
use book_history::entry::Entry;
use book_history::history::History;
use cycle_eval::Design;
use history_replay::{is_over, is_right};
use ls_text::NoMemory;
use std::alloc::Global;

// What is told of the links between checkpoints: that all of them are joined, or up to which cycle they are.
#[derive(Clone, Copy, Debug, PartialEq, Eq)]
enum Told {
    Settled,
    UpTo(u64),
}

// The cycle at the end of a line that tells one.
fn up_to(line: &str) -> Option<Told> {
    let (_before, cycle) = line.rsplit_once("settled_to=")?;
    Some(Told::UpTo(cycle.parse().ok()?))
}

// What a line of replies tells, where it is the first one of a display or the reply to a settle.
fn told_by(line: &str) -> Option<Told> {
    let word = if line.starts_with("show ") { 2 } else { 0 };
    match line.split_whitespace().nth(word) {
        Some("settled") => Some(Told::Settled),
        Some("estimate") => up_to(line),
        Some("unsettled") => up_to(line),
        _ => None,
    }
}

// What lines tell, in order.
fn told_by_lines(alloc: Global, lines: &str) -> Result<Vec<Told>, NoMemory> {
    let mut all = Vec::new(alloc);
    for line in lines.lines() {
        if let Some(told) = told_by(line) {
            all.push(told)?;
        }
    }
    Ok(all)
}

// What the shows among these entries tell, in order.
fn told_by_entries(alloc: Global, entries: &[Entry]) -> Result<Vec<Told>, NoMemory> {
    let mut all = Vec::new(alloc);
    for entry in entries {
        if let Entry::Show { settled_to } = entry {
            all.push(match settled_to {
                None => Told::Settled,
                Some(cycle) => Told::UpTo(*cycle),
            })?;
        }
    }
    Ok(all)
}

// What the shows of a history tell, in order.
fn told_by_history(alloc: Global, history: &History<Design>) -> Result<Vec<Told>, NoMemory> {
    told_by_entries(alloc, history.entries())
}

// What is wrong with the history of a run that wrote these lines.
fn found(
    alloc: Global,
    history: &History<Design>,
    lines: &str,
) -> Result<Option<&'static str>, NoMemory> {
    if !is_right(alloc, history)? {
        return Ok(Some("its history isn't right"));
    }
    if !is_over(history) {
        return Ok(Some("its history isn't over"));
    }
    if told_by_history(alloc, history)? != told_by_lines(alloc, lines)? {
        return Ok(Some("its history tells of other displays"));
    }
    Ok(None)
}

/// What is wrong with the history that comes back of a run that wrote these lines; none where a plain replay finds it right, it is over, and it tells of each
/// display and each settle what the line tells.
pub fn fault_of(alloc: Global, history: &History<Design>, lines: &str) -> Option<&'static str> {
    match found(alloc, history, lines) {
        Ok(fault) => fault,
        Err(NoMemory) => Some("its history takes too much memory"),
    }
}
