// A script, cut behind each of its bytes.
use crate::running::ran;
use crate::scripts::CARRIED;
use ls_port::{SolidShelf, SolidSink, SolidSource};
use ls_text::NoMemory;
use std::alloc::Global;
use std::process::Abort;
use std::sync::Wait;
use std::test::Fail;
use std::thread::Threads;

/// Whether a command that ends with these bytes is answered as the whole one: its newline alone is cut off, or a digit or a number that changes nothing
/// here.
fn is_whole(front: &str, command: &str) -> bool {
    front == command.trim_end() || front == "set d=0" || front == "settle"
}

/// What is refused of a command that ends with these bytes: the code and its name, and what it shows.
fn refused(front: &str) -> (&'static str, &str) {
    match front {
        "set" | "run" => ("60 BadCommand", "-"),
        "set d" | "set d=" => ("61 BadValue", "d"),
        word => ("60 BadCommand", word),
    }
}

/// The reply to the first bytes of a command that stands at this line, where the whole one is answered so.
fn answer(
    alloc: Global,
    front: &str,
    command: &str,
    line: usize,
    reply: &str,
) -> Result<String, NoMemory> {
    let front = front.trim_end();
    if front.is_empty() {
        return Ok(String::new(alloc));
    }
    if is_whole(front, command) {
        return Ok(String::from_str(alloc, reply)?);
    }
    if front.starts_with("edit") {
        return Ok(format!(in alloc; "refused 66 Unfinished @{line} -\n")?);
    }
    let (code, shown) = refused(front);
    Ok(format!(in alloc; "refused {code} @{line} {shown}\n")?)
}

/// What the bytes say, where they are a text.
fn text_of(bytes: &[u8]) -> &str {
    str::from_utf8(bytes).unwrap_or("")
}

/// The first bytes of a command behind these whole ones, and the lines that answer all.
fn is_cut<R: Threads + Wait + Sync + Abort>(
    rt: &R,
    alloc: Global,
    before: &[u8],
    front: &[u8],
    lines: &str,
) -> Result<(), Fail> {
    let mut script = Vec::from_slice(alloc, before)?;
    script.extend_from_slice(front)?;
    let length = script.len() as u64;
    let mut source = SolidSource::new(script);
    let mut sink = SolidSink::new(alloc);
    let mut shelf = SolidShelf::new(alloc, Vec::new(alloc));
    let outcome = ran(rt, alloc, &mut source, &mut sink, &mut shelf)?;
    assert_eq!(rt; outcome.status, u8::from(lines.contains("refused")));
    assert_eq!(rt; outcome.taken, length);
    assert_eq!(rt; text_of(sink.bytes()), lines);
    Ok(())
}

#[test]
fn a_script_is_cut_behind_each_of_its_bytes(rt: HostRuntime) -> Result<(), Fail> {
    let alloc = rt.alloc();
    let mut before = Vec::new(alloc);
    let mut lines = String::new(alloc);
    for (command, reply) in CARRIED {
        let line = before
            .iter()
            .filter(|byte| **byte == b'\n')
            .count()
            .saturating_add(1);
        for length in 0..command.len() + 1 {
            let mut wanted = lines.clone()?;
            let front = text_of(&command[..length]);
            let answer = answer(alloc, front, text_of(command), line, text_of(reply))?;
            wanted.push_str(answer.as_str())?;
            is_cut(&rt, alloc, &before, &command[..length], wanted.as_str())?;
        }
        before.extend_from_slice(command)?;
        lines.push_str(text_of(reply))?;
    }
    Ok(())
}
