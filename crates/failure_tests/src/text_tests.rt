// Texts that pass a limit, in one session: each is refused with its code and place, and leaves status and display as before.
use crate::running::ran;
use crate::scripts::{ACCEPTED, BLOCK};
use crate::texts::{TEXTS, text};
use ls_port::{SolidShelf, SolidSink, SolidSource};
use ls_text::NoMemory;
use std::alloc::Global;
use std::test::Fail;

/// The most bytes of a text.
const LONGEST: usize = 4_194_304;

/// The replies to `status` and `show` behind five cycles, the unit with the digest of its key text.
const STATE: &[u8] =
    b"status v=1 cycle=5 marks=4 units=1\nunit top 4267ea9d3f8075e24564f6742a444a8041280139ffc70b1d7747cc1cddabd1a8\nshow cycle=5 settled v=1\ntop.acc 0f\n";

/// A script and its lines, so far.
#[derive(Drop)]
struct Played {
    script: Vec<u8>,
    lines: Vec<u8>,
}

/// How many lines the script has.
fn count_lines(script: &[u8]) -> usize {
    script.iter().filter(|byte| **byte == b'\n').count()
}

/// Adds what asks for the state.
fn ask(played: &mut Played) -> Result<(), NoMemory> {
    played.script.extend_from_slice(b"status\nshow\n")?;
    played.lines.extend_from_slice(STATE)?;
    Ok(())
}

/// Adds a block with this text, which is refused so; a fault that isn't in the text is at the line of `edit`, or at that of `file`, two behind it.
fn refuse(alloc: Global, played: &mut Played, text: &[u8], fault: &str) -> Result<(), NoMemory> {
    let edit = count_lines(&played.script).saturating_add(1);
    let file = edit.saturating_add(2);
    played
        .script
        .extend_from_slice(b"edit\ntop top\nfile a.v\n")?;
    played.script.extend_from_slice(text)?;
    played.script.extend_from_slice(b".\nend\n")?;
    let line = match fault {
        "40 TooMany" => format!(in alloc; "refused {fault} @{edit} -\n")?,
        "10 TextTooLong" => format!(in alloc; "refused {fault} @{file} a.v\n")?,
        fault => format!(in alloc; "refused {fault}\n")?,
    };
    played.lines.extend_from_slice(line.as_bytes())?;
    ask(played)
}

/// A design behind five cycles.
fn begun(alloc: Global) -> Result<Played, NoMemory> {
    let mut played = Played {
        script: Vec::from_slice(alloc, BLOCK)?,
        lines: Vec::from_slice(alloc, ACCEPTED)?,
    };
    played.script.extend_from_slice(b"set d=03\nrun 5\n")?;
    played.lines.extend_from_slice(b"ok set\nok run cycle=5\n")?;
    ask(&mut played)?;
    Ok(played)
}

/// All texts, and one of 4,194,305 newlines.
fn all(alloc: Global) -> Result<Played, NoMemory> {
    let mut played = begun(alloc)?;
    for number in 0..TEXTS {
        let refused = text(alloc, number)?;
        refuse(alloc, &mut played, refused.text.as_bytes(), refused.line)?;
    }
    let mut longer = Vec::new(alloc);
    for _ in 0..LONGEST + 1 {
        longer.push(b'\n')?;
    }
    refuse(alloc, &mut played, &longer, "10 TextTooLong")?;
    Ok(played)
}

#[test]
fn texts_that_pass_a_limit_leave_the_session(rt: HostRuntime) -> Result<(), Fail> {
    let alloc = rt.alloc();
    let Played { script, lines } = all(alloc)?;
    let mut source = SolidSource::new(script);
    let mut sink = SolidSink::new(alloc);
    let mut shelf = SolidShelf::new(alloc, Vec::new(alloc));
    let outcome = ran(&rt, alloc, &mut source, &mut sink, &mut shelf)?;
    assert_eq!(rt; outcome.status, 1);
    assert!(rt; sink.bytes() == lines.as_slice());
    Ok(())
}
