// Sources, sinks and the open gate: that the calls succeed, and fail where they are told.
use ls_port::{
    Failed, Gate, GateStep, MemSink, MemSource, OpenGate, Sink, SinkRefusal, SolidSink,
    SolidSource, Source, StdSink, StdSource,
};
use std::test::Fail;

#[test]
fn memory_fails_at_the_calls_that_are_told(rt: HostRuntime) -> Result<(), Fail> {
    let alloc = rt.alloc();
    let mut source = MemSource::new(Vec::from_slice(alloc, b"abcde")?, vec![in alloc; 1]?);
    let mut buf = [0u8; 3];
    assert!(rt; source.read(&mut buf) == Ok(3));
    assert!(rt; source.read(&mut buf) == Err(Failed));
    assert!(rt; source.read(&mut buf) == Ok(2));
    assert!(rt; buf == *b"dec");
    assert!(rt; source.read(&mut buf) == Ok(0));
    let mut sink = MemSink::new(alloc, vec![in alloc; 0]?);
    assert!(rt; sink.write(b"ab") == Err(SinkRefusal::Failed));
    assert!(rt; sink.write(b"ab") == Ok(2));
    assert!(rt; sink.write(b"c") == Ok(1));
    assert!(rt; sink.bytes() == b"abc".as_slice());
    Ok(())
}

#[test]
fn solid_memory_never_fails(rt: HostRuntime) -> Result<(), Fail> {
    let alloc = rt.alloc();
    let mut source = SolidSource::new(Vec::from_slice(alloc, b"abcde")?);
    let mut buf = [0u8; 4];
    assert!(rt; source.read(&mut buf) == Ok(4));
    assert!(rt; source.read(&mut buf) == Ok(1));
    assert!(rt; buf == *b"ebcd");
    let mut sink = SolidSink::new(alloc);
    assert!(rt; sink.write(b"ab") == Ok(2));
    assert!(rt; sink.write(b"c") == Ok(1));
    assert!(rt; sink.bytes() == b"abc".as_slice());
    Ok(())
}

#[test]
fn a_reader_and_a_writer_of_std_hand_their_bytes_on(rt: HostRuntime) -> Result<(), Fail> {
    let mut source = StdSource::new(b"abcde".as_slice());
    let mut buf = [0u8; 3];
    assert!(rt; source.read(&mut buf) == Ok(3));
    assert!(rt; buf == *b"abc");
    assert!(rt; source.read(&mut buf) == Ok(2));
    assert!(rt; buf == *b"dec");
    assert!(rt; source.read(&mut buf) == Ok(0));
    let mut written = Vec::new(rt.alloc());
    let mut sink = StdSink::new(&mut written);
    assert!(rt; sink.write(b"ab") == Ok(2));
    assert!(rt; sink.write(b"") == Ok(0));
    assert!(rt; sink.write(b"c") == Ok(1));
    drop(sink);
    assert!(rt; written.as_slice() == b"abc".as_slice());
    Ok(())
}

#[test]
fn nobody_waits_at_an_open_gate(rt: HostRuntime) -> Result<(), Fail> {
    let gate = OpenGate;
    gate.before(1, GateStep::Verify);
    gate.before(1, GateStep::Install);
    assert!(rt; GateStep::Verify != GateStep::Install);
    Ok(())
}
