// Each read and each write fails in turn, and each byte of a reply is refused in turn.
use crate::byte_sink::ByteSink;
use crate::running::{ran, recorded};
use crate::scripts::{SETTLED, replies, script};
use book_history::entry::Entry;
use book_history::who::Who;
use ls_port::{MemSink, MemSource, SolidShelf, SolidSource};
use ls_text::NoMemory;
use std::alloc::Global;
use std::process::Abort;
use std::sync::Wait;
use std::test::Fail;
use std::thread::Threads;

/// The most that one read takes, in bytes.
const READ: usize = 65_536;

/// The script, with a comment of one read before each command, so that each command is complete behind one read more.
fn spaced(alloc: Global) -> Result<Vec<u8>, NoMemory> {
    let mut bytes = Vec::new(alloc);
    for (command, _) in SETTLED {
        for _ in 1..READ {
            bytes.push(b'#')?;
        }
        bytes.push(b'\n')?;
        bytes.extend_from_slice(command)?;
    }
    Ok(bytes)
}

/// How a run ends whose read and write of these numbers fail, and how many commands are answered then. The n-th command is complete behind the read
/// n + 1, counted from 0, and is answered before more is read; the tenth read takes what is left, and the eleventh finds the end.
fn ending(read: usize, write: usize) -> (u8, usize) {
    if write < 9 && read >= write + 2 {
        return (4, write);
    }
    if read < 11 {
        return (3, read.saturating_sub(1));
    }
    (0, 9)
}

/// The run with these faults ends so, what it wrote are the replies to so many commands, and its history has the entries of those that were carried out: at
/// a fault of the sink one more.
fn fails_at<R: Threads + Wait + Sync + Abort>(
    rt: &R,
    alloc: Global,
    bytes: &[u8],
    read: usize,
    write: usize,
) -> Result<(), Fail> {
    let mut source = MemSource::new(Vec::from_slice(alloc, bytes)?, vec![in alloc; read as u64]?);
    let mut sink = MemSink::new(alloc, vec![in alloc; write as u64]?);
    let mut shelf = SolidShelf::new(alloc, Vec::new(alloc));
    let outcome = ran(rt, alloc, &mut source, &mut sink, &mut shelf)?;
    let (status, answered) = ending(read, write);
    let wanted = replies(alloc, &SETTLED, answered)?;
    assert_eq!(rt; outcome.status, status);
    assert!(rt; sink.bytes() == wanted.as_slice());
    let reads = if status == 4 {
        write.saturating_add(2)
    } else {
        read
    };
    let carried_out = if status == 4 {
        answered.saturating_add(1)
    } else {
        answered
    };
    assert!(rt; recorded(alloc, &outcome.history)? == entries_of(alloc, carried_out)?);
    assert_eq!(rt;
        outcome.taken as usize,
        bytes.len().min(reads.saturating_mul(READ))
    );
    Ok(())
}

// 9 is a write and 11 a read that is never reached. A write is reached before the read two behind it, and behind the one before that.
#[test]
fn reads_and_writes_fail_in_turn(rt: HostRuntime) -> Result<(), Fail> {
    let alloc = rt.alloc();
    let bytes = spaced(alloc)?;
    for read in 0..12 {
        fails_at(&rt, alloc, &bytes, read, 9)?;
    }
    for write in 0..9 {
        for read in [write + 1, write + 2, 11] {
            fails_at(&rt, alloc, &bytes, read, write)?;
        }
    }
    Ok(())
}

/// The entries of the session that the commands of the script have, each with how many commands were carried out up to it.
fn entries(alloc: Global) -> Result<Vec<(usize, Entry)>, NoMemory> {
    let by = Who::Session;
    let claim = |ticket: u64, a: u64, b: u64| -> Entry { Entry::Claim { ticket, a, b, by } };
    let install = |ticket: u64| -> Entry {
        Entry::Install {
            ticket,
            joined: true,
            by,
        }
    };
    let rows = [
        (1, Entry::Open { version: 1 }),
        (3, Entry::Run { n: 5 }),
        (4, Entry::Show { settled_to: None }),
        (
            5,
            Entry::Reload {
                version: 2,
                from: 4,
            },
        ),
        (
            6,
            Entry::Show {
                settled_to: Some(0),
            },
        ),
        (7, claim(1, 0, 2)),
        (7, install(1)),
        (7, claim(2, 2, 4)),
        (7, install(2)),
        (
            7,
            Entry::Show {
                settled_to: Some(4),
            },
        ),
        (8, claim(3, 4, 5)),
        (8, install(3)),
        (8, Entry::Show { settled_to: None }),
        (9, Entry::Show { settled_to: None }),
    ];
    Ok(Vec::from_slice(alloc, &rows)?)
}

/// The entries of the first commands, so many of them, and then the close.
fn entries_of(alloc: Global, count: usize) -> Result<Vec<Entry>, NoMemory> {
    let mut found = Vec::new(alloc);
    for (command, entry) in entries(alloc)? {
        if command <= count {
            found.push(entry)?;
        }
    }
    found.push(Entry::Close)?;
    Ok(found)
}

/// How many commands were carried out where so many bytes of their replies were written, and no more.
fn carried_out(written: usize) -> usize {
    let mut length = 0usize;
    let mut count = 0usize;
    for (_, reply) in SETTLED {
        if length <= written {
            count = count.saturating_add(1);
        }
        length = length.saturating_add(reply.len());
    }
    count
}

/// A sink takes so many bytes, one a call, and refuses the next one: all before it was written, and the history has the entries of the commands that
/// were carried out, the last of them with a reply that is lost or half written.
fn is_refused_at<R: Threads + Wait + Sync + Abort>(
    rt: &R,
    alloc: Global,
    lines: &[u8],
    refused: usize,
    is_dry: bool,
) -> Result<(), Fail> {
    let mut source = SolidSource::new(script(alloc, &SETTLED)?);
    let mut sink = ByteSink::new(alloc, refused, is_dry);
    let mut shelf = SolidShelf::new(alloc, Vec::new(alloc));
    let outcome = ran(rt, alloc, &mut source, &mut sink, &mut shelf)?;
    let stopped = if is_dry { 5 } else { 4 };
    let status = if refused < lines.len() { stopped } else { 0 };
    assert_eq!(rt; outcome.status, status);
    assert!(rt; sink.bytes.as_slice() == &lines[..refused.min(lines.len())]);
    let wanted = entries_of(alloc, carried_out(refused))?;
    assert!(rt; recorded(alloc, &outcome.history)? == wanted);
    Ok(())
}

#[test]
fn each_byte_of_a_reply_is_refused_in_turn(rt: HostRuntime) -> Result<(), Fail> {
    let alloc = rt.alloc();
    let lines = replies(alloc, &SETTLED, 9)?;
    for refused in 0..lines.len() + 1 {
        is_refused_at(&rt, alloc, &lines, refused, false)?;
        is_refused_at(&rt, alloc, &lines, refused, true)?;
    }
    Ok(())
}
