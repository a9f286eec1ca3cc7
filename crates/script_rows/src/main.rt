// Runs the scripts of its folder of data in memory, compares what they write with what they have to write, and takes the history of each run entry by
// entry (`histories`).
//
// `rows.txt` has a line `STATUS NAME WORDS` for each row: NAME.live is the script, NAME.out are the lines, STATUS is how the run
// ends, and WORDS are those of the command line, where there are any, but for the workers: each row runs without one and with two, where the
// lines of those that print an estimate aren't compared. `FAULTS.md` is the page of faults: each of its examples is a row, and shows the fault by the
// line that the page tells; each fault that a row shows is on the page. `fresh.txt` has a line `NAME FRESH` for each row whose last display is
// settled: FRESH.live has its last design alone, with the inputs and cycles that were recorded, and the registers are the same. What differs is
// named, with the first line that does, and the rows that are as they have to be are counted (`counts`). How rows, the page and displays are read is
// of script_lines.
#![tactic(auto)]

mod counts;
mod histories;

use crate::counts::Counts;
use crate::histories::fault_of;
use livesim::live_run;
use ls_port::{FileShelf, OpenGate, Shelf, SolidSink, SolidSource};
use script_lines::displays::last_settled;
use script_lines::page;
use script_lines::page::{example_of, has, row_of};
use script_lines::row::{Row, are_of_every_schedule};
use std::alloc::Global;
use std::sync::Wait;
use std::thread::Threads;
use std::{fs, io};

// The words of a command line with so many workers, of those behind the program's name.
fn words_of(alloc: Global, given: &str, workers: &str) -> io::Result<Vec<String>> {
    let mut words = Vec::new(alloc);
    for word in ["livesim", "--workers", workers] {
        words.push(String::from_str(alloc, word)?)?;
    }
    for word in given.split_whitespace() {
        words.push(String::from_str(alloc, word)?)?;
    }
    Ok(words)
}

// The name of a row, and its words, of what stands behind its status.
fn name_and_words(row: &str) -> (&str, &str) {
    match row.split_once(' ') {
        Some((name, words)) => (name, words),
        None => (row, ""),
    }
}

// How a row ends beside so many workers and the first line of it that is another one, where it doesn't end with its status and write its lines; what is
// wrong with its history, where it does. The lines aren't compared where they depend on the schedule.
fn difference<R: Threads + Wait + Sync, F: Shelf>(
    rt: &R,
    alloc: Global,
    shelf: &mut F,
    row: &Row<'_>,
    workers: &str,
    are_the_same: bool,
) -> io::Result<Option<String>> {
    let words = words_of(alloc, row.words, workers)?;
    let mut source = SolidSource::new(Vec::from_slice(alloc, row.script.as_bytes())?);
    let mut sink = SolidSink::new(alloc);
    let outcome = live_run(rt, alloc, &words, &mut source, &mut sink, shelf, &OpenGate);
    let ended = format!(in alloc; "{}", outcome.status)?;
    let written = str::from_utf8(sink.bytes()).unwrap_or("");
    if ended.as_str() != row.status || (are_the_same && written != row.lines) {
        let line = first_other(written, row.lines);
        return Ok(Some(format!(in alloc; "ended with {ended}; {line}")?));
    }
    match fault_of(alloc, &outcome.history, written) {
        Some(fault) => Ok(Some(String::from_str(alloc, fault)?)),
        None => Ok(None),
    }
}

// Whether a row agrees beside so many workers; what differs is named.
fn agrees<R: Threads + Wait + Sync>(
    host: &HostRuntime,
    rt: &R,
    alloc: Global,
    name: &str,
    row: &Row<'_>,
    workers: &str,
    are_the_same: bool,
) -> io::Result<bool> {
    let mut shelf = FileShelf::new(host);
    match difference(rt, alloc, &mut shelf, row, workers, are_the_same)? {
        None => Ok(true),
        Some(found) => {
            println!(host; "{name} differs with {workers} workers: {found}")?;
            Ok(false)
        }
    }
}

// The first line of a text that another text doesn't have at its place.
fn first_other<'a>(text: &'a str, other: &str) -> &'a str {
    let mut others = other.lines();
    for line in text.lines() {
        if others.next() != Some(line) {
            return line;
        }
    }
    "no line is another one"
}

// The lines that a row has to write.
fn lines_of(rt: &HostRuntime, alloc: Global, name: &str) -> io::Result<String> {
    let file = format!(in alloc; "{name}.out")?;
    fs::read_to_string(rt, file.as_str())
}

// Whether a row of this name is there.
fn is_row(rows: &str, name: &str) -> bool {
    for row in rows.lines() {
        if let Some((_status, row)) = row.split_once(' ') {
            if name_and_words(row).0 == name {
                return true;
            }
        }
    }
    false
}

// How many of a fault's examples are rows that show it as the page says; the others are named.
fn examples_agree(
    rt: &HostRuntime,
    alloc: Global,
    rows: &str,
    fault: &str,
    examples: &str,
) -> io::Result<u32> {
    let mut count = 0u32;
    for part in examples.split("; ") {
        let Some(example) = example_of(part) else {
            continue;
        };
        let name = example.script;
        if is_row(rows, name)
            && page::agrees(lines_of(rt, alloc, name)?.as_str(), fault, &example)
        {
            count = count.saturating_add(1);
        } else {
            println!(rt; "{name} isn't the example of {fault} that the page tells")?;
        }
    }
    Ok(count)
}

// Whether the last displays of these lines and of what was written are settled and have the same registers.
fn end_alike(alloc: Global, lines: &str, written: &str) -> io::Result<bool> {
    let shown = last_settled(alloc, lines)?;
    let alone = last_settled(alloc, written)?;
    Ok(shown.is_some() && shown == alone)
}

// Whether the last display of these lines is settled, and the script, a run of the last design alone, ends with the same registers.
fn is_of_a_fresh_run<R: Threads + Wait + Sync, F: Shelf>(
    rt: &R,
    alloc: Global,
    shelf: &mut F,
    script: &str,
    lines: &str,
) -> io::Result<bool> {
    let words = words_of(alloc, "", "0")?;
    let mut source = SolidSource::new(Vec::from_slice(alloc, script.as_bytes())?);
    let mut sink = SolidSink::new(alloc);
    let outcome = live_run(rt, alloc, &words, &mut source, &mut sink, shelf, &OpenGate);
    let written = str::from_utf8(sink.bytes()).unwrap_or("");
    if outcome.status != 0 || fault_of(alloc, &outcome.history, written).is_some() {
        return Ok(false);
    }
    end_alike(alloc, lines, written)
}

// How many rows end with the registers of a run of their last design alone; the others are named.
fn settled_agree<R: Threads + Wait + Sync>(
    host: &HostRuntime,
    rt: &R,
    alloc: Global,
) -> io::Result<u32> {
    let pairs = fs::read_to_string(host, "fresh.txt")?;
    let mut count = 0u32;
    for pair in pairs.lines() {
        let Some((name, fresh)) = pair.split_once(' ') else {
            continue;
        };
        let lines = lines_of(host, alloc, name)?;
        let script = format!(in alloc; "{fresh}.live")?;
        let script = fs::read_to_string(host, script.as_str())?;
        let mut shelf = FileShelf::new(host);
        if is_of_a_fresh_run(rt, alloc, &mut shelf, script.as_str(), lines.as_str())? {
            count = count.saturating_add(1);
        } else {
            println!(host; "{name} doesn't end with the registers of {fresh}")?;
        }
    }
    Ok(count)
}

// How many rows agree without workers, and how many with two; the others are named.
fn rows_agree<R: Threads + Wait + Sync>(
    host: &HostRuntime,
    rt: &R,
    alloc: Global,
    rows: &str,
) -> io::Result<Counts> {
    let mut counts = Counts::none();
    for row in rows.lines() {
        let Some((status, row)) = row.split_once(' ') else {
            continue;
        };
        let (name, words) = name_and_words(row);
        let script = format!(in alloc; "{name}.live")?;
        let script = fs::read_to_string(host, script.as_str())?;
        let lines = lines_of(host, alloc, name)?;
        let row = Row {
            words,
            script: script.as_str(),
            lines: lines.as_str(),
            status,
        };
        let are_the_same = are_of_every_schedule(row.lines);
        counts.count_alone(agrees(host, rt, alloc, name, &row, "0", true)?);
        let beside = agrees(host, rt, alloc, name, &row, "2", are_the_same)?;
        counts.count_beside(beside, are_the_same);
    }
    Ok(counts)
}

// Names each fault that a row shows and that isn't on the page.
fn name_the_unlisted(rt: &HostRuntime, alloc: Global, rows: &str, page: &str) -> io::Result<()> {
    for row in rows.lines() {
        let Some((_status, row)) = row.split_once(' ') else {
            continue;
        };
        let (name, _words) = name_and_words(row);
        let lines = lines_of(rt, alloc, name)?;
        for line in lines.as_str().lines() {
            if line.starts_with("refused ") && !has(page, line) {
                println!(rt; "{name} shows a fault that isn't on the page: {line}")?;
            }
        }
    }
    Ok(())
}

fn main(rt: HostRuntime) -> io::Result<()> {
    let alloc = rt.alloc();
    let rows = fs::read_to_string(&rt, "rows.txt")?;
    let page = fs::read_to_string(&rt, "FAULTS.md")?;
    let counts = rows_agree(&rt, &rt, alloc, rows.as_str())?;
    name_the_unlisted(&rt, alloc, rows.as_str(), page.as_str())?;
    let Counts {
        alone,
        beside,
        unlike,
    } = counts;
    println!(rt; "{alone} rows agree without workers")?;
    println!(rt; "{beside} rows agree with two workers")?;
    println!(rt;
        "{unlike} rows whose lines depend on the schedule have right histories with two workers"
    )?;
    let mut count = 0u32;
    for line in page.lines() {
        if let Some(entry) = row_of(line) {
            let agree = examples_agree(&rt, alloc, rows.as_str(), entry.fault, entry.examples)?;
            count = count.saturating_add(agree);
        }
    }
    println!(rt; "{count} examples of faults agree")?;
    let count = settled_agree(&rt, &rt, alloc)?;
    println!(rt; "{count} settled displays are those of the last design alone")
}
