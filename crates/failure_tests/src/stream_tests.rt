// The edge that the program has, a reader and a writer of std, where these fail.
use crate::broken_reader::BrokenReader;
use crate::broken_writer::BrokenWriter;
use crate::running::ran;
use crate::scripts::{SETTLED, replies, script};
use ls_port::{SolidShelf, SolidSink, SolidSource, StdSink, StdSource};
use std::alloc::Global;
use std::process::Abort;
use std::sync::Wait;
use std::test::Fail;
use std::thread::Threads;

/// A reader fails behind so many bytes, in which so many commands are complete: these are answered, and the status is 3.
fn fails_behind<R: Threads + Wait + Sync + Abort>(
    rt: &R,
    alloc: Global,
    most: usize,
    complete: usize,
) -> Result<(), Fail> {
    let mut source = StdSource::new(BrokenReader {
        bytes: script(alloc, &SETTLED)?,
        given: 0,
        most,
    });
    let mut sink = SolidSink::new(alloc);
    let mut shelf = SolidShelf::new(alloc, Vec::new(alloc));
    let outcome = ran(rt, alloc, &mut source, &mut sink, &mut shelf)?;
    assert_eq!(rt; (outcome.status, outcome.taken as usize), (3, most));
    assert!(rt; sink.bytes() == replies(alloc, &SETTLED, complete)?.as_slice());
    Ok(())
}

// Behind each command, and within the one that follows.
#[test]
fn a_reader_fails(rt: HostRuntime) -> Result<(), Fail> {
    let alloc = rt.alloc();
    for complete in 0..9 {
        let most = script(alloc, SETTLED.split_at(complete).0)?.len();
        fails_behind(&rt, alloc, most, complete)?;
        fails_behind(&rt, alloc, most + 1, complete)?;
    }
    Ok(())
}

/// A writer takes so many bytes and then fails, or nothing more: all before was written, and the status is 4.
fn takes_no_more_than<R: Threads + Wait + Sync + Abort>(
    rt: &R,
    alloc: Global,
    most: usize,
    is_full: bool,
) -> Result<(), Fail> {
    let mut source = SolidSource::new(script(alloc, &SETTLED)?);
    let mut written = BrokenWriter {
        bytes: Vec::new(alloc),
        most,
        is_full,
    };
    let mut sink = StdSink::new(&mut written);
    let mut shelf = SolidShelf::new(alloc, Vec::new(alloc));
    let outcome = ran(rt, alloc, &mut source, &mut sink, &mut shelf)?;
    assert_eq!(rt; outcome.status, 4);
    let lines = replies(alloc, &SETTLED, 9)?;
    assert!(rt; written.bytes.as_slice() == &lines[..most.min(lines.len())]);
    Ok(())
}

// At the first byte, within a reply, between two, and at the last byte.
#[test]
fn a_writer_fails(rt: HostRuntime) -> Result<(), Fail> {
    let alloc = rt.alloc();
    let between = replies(alloc, &SETTLED, 3)?.len();
    let last = replies(alloc, &SETTLED, 9)?.len().saturating_sub(1);
    for most in [0, 5, between, last] {
        takes_no_more_than(&rt, alloc, most, false)?;
        takes_no_more_than(&rt, alloc, most, true)?;
    }
    Ok(())
}
