// What no script can reach: reads and writes that fail, scripts that are cut, and limits.
use history_replay::{is_over, is_right};
use livesim::{Outcome, live_run};
use ls_port::{MemShelf, MemSink, MemSource, NamedText, OpenGate, Shelf, SolidShelf};
use ls_text::{NoMemory, TextBytes};
use std::alloc::Global;
use std::process::Abort;
use std::sync::Wait;
use std::test::Fail;
use std::thread::Threads;

const HEAD: &[u8] = b"edit\ntop top\nclock clk\nfile a.v\nmodule top(input clk);\n";

const TAIL: &[u8] = b"\nendmodule\n.\nend\n";

const OK_EDIT: &[u8] = b"ok edit v=1 built=1 kept=0 from=0\n";

// The words of a command line.
fn words_of(alloc: Global, given: &[&str]) -> Result<Vec<String>, NoMemory> {
    let mut words = vec![in alloc; String::from_str(alloc, "livesim")?]?;
    for word in given {
        words.push(String::from_str(alloc, word)?)?;
    }
    Ok(words)
}

// A script over a shelf beside so many workers, with the calls that fail: how it ended, with a history that is right and over, and what was written.
fn shelved<R: Threads + Wait + Sync, F: Shelf>(
    rt: &R,
    alloc: Global,
    workers: &str,
    script: Vec<u8>,
    reads: Vec<u64>,
    writes: Vec<u64>,
    shelf: &mut F,
) -> Result<(Outcome, Vec<u8>), Fail> {
    let words = words_of(alloc, &["--workers", workers])?;
    let mut source = MemSource::new(script, reads);
    let mut sink = MemSink::new(alloc, writes);
    let outcome = live_run(rt, alloc, &words, &mut source, &mut sink, shelf, &OpenGate);
    if !is_right(alloc, &outcome.history)? || !is_over(&outcome.history) {
        return Err("the history isn't right, or isn't over")?;
    }
    Ok((outcome, Vec::from_slice(alloc, sink.bytes())?))
}

// The same over an empty shelf.
fn bare<R: Threads + Wait + Sync>(
    rt: &R,
    alloc: Global,
    workers: &str,
    script: Vec<u8>,
    reads: Vec<u64>,
    writes: Vec<u64>,
) -> Result<(Outcome, Vec<u8>), Fail> {
    let mut shelf = SolidShelf::new(alloc, Vec::new(alloc));
    shelved(rt, alloc, workers, script, reads, writes, &mut shelf)
}

// The same without workers and beside two, which end alike and write the same.
fn lived<R: Threads + Wait + Sync>(
    rt: &R,
    alloc: Global,
    script: Vec<u8>,
    reads: Vec<u64>,
    writes: Vec<u64>,
) -> Result<(Outcome, Vec<u8>), Fail> {
    let again = Vec::from_slice(alloc, &script)?;
    let reads_again = Vec::from_slice(alloc, &reads)?;
    let writes_again = Vec::from_slice(alloc, &writes)?;
    let (alone, lines) = bare(rt, alloc, "0", script, reads, writes)?;
    let (beside, written) = bare(rt, alloc, "2", again, reads_again, writes_again)?;
    let same = beside.status == alone.status && beside.taken == alone.taken;
    if !same || written.as_slice() != lines.as_slice() {
        return Err("two workers change how it ends")?;
    }
    Ok((beside, written))
}

// The bytes of some parts, one after another.
fn joined(alloc: Global, parts: &[&[u8]]) -> Result<Vec<u8>, NoMemory> {
    let mut whole = Vec::new(alloc);
    for part in parts {
        whole.extend_from_slice(part)?;
    }
    Ok(whole)
}

#[test]
fn limits_of_a_text(rt: HostRuntime) -> Result<(), Fail> {
    let alloc = rt.alloc();
    // The number of `+`, the number of spaces behind the last, and the line that answers.
    let rows: [(u32, usize, &[u8]); 5] = [
        (255, 0, OK_EDIT),
        (256, 0, b"refused 16 NestedTooDeep a.v:3:2076 -\n"),
        (257, 0, b"refused 16 NestedTooDeep a.v:3:2076 -\n"),
        (1, 4_194_206, OK_EDIT),
        (1, 4_194_207, b"refused 10 TextTooLong @4 a.v\n"),
    ];
    for (plus, spaces, want) in rows {
        let mut script = joined(
            alloc,
            &[
                HEAD,
                b"reg [7:0] acc = 8'h00;\nalways @(posedge clk) acc <= acc",
            ],
        )?;
        for _ in 0..plus {
            script.extend_from_slice(b" + 8'h01")?;
        }
        for _ in 0..spaces {
            script.push(b' ')?;
        }
        script.extend_from_slice(b";")?;
        script.extend_from_slice(TAIL)?;
        let (_, written) = lived(&rt, alloc, script, Vec::new(alloc), Vec::new(alloc))?;
        assert!(rt; written.as_slice() == want);
    }
    Ok(())
}

// What a script answers to its first lines, cut behind so many bytes of the block or of what follows it.
fn answer_to_the_block(length: usize, whole: usize) -> &'static [u8] {
    match length {
        0 => b"",
        1 => b"refused 60 BadCommand @1 e\n",
        2 => b"refused 60 BadCommand @1 ed\n",
        3 => b"refused 60 BadCommand @1 edi\n",
        _ if length < whole => b"refused 66 Unfinished @1 -\n",
        _ => b"refused 29 UnknownName a.v:3:36 e\n",
    }
}

fn answer_to_the_run(behind: usize) -> &'static [u8] {
    match behind {
        0 | 1 => b"",
        2 => b"refused 60 BadCommand @11 r\n",
        3 => b"refused 60 BadCommand @11 ru\n",
        4 | 5 => b"refused 60 BadCommand @11 -\n",
        _ => b"refused 62 NoDesign @11 -\n",
    }
}

fn answer_to_the_show(behind: usize) -> &'static [u8] {
    match behind {
        0..=7 => b"",
        8 => b"refused 60 BadCommand @12 s\n",
        9 => b"refused 60 BadCommand @12 sh\n",
        10 => b"refused 60 BadCommand @12 sho\n",
        _ => b"refused 62 NoDesign @12 -\n",
    }
}

// A script, cut at each of its lengths.
#[test]
fn scripts_are_cut(rt: HostRuntime) -> Result<(), Fail> {
    let alloc = rt.alloc();
    let block = joined(
        alloc,
        &[
            HEAD,
            b"reg [7:0] acc = 8'h00;\nalways @(posedge clk) acc <= acc + e;",
            b"\nendmodule\n.\nend",
        ],
    )?;
    let script = joined(alloc, &[&block, b"\nrun 5\nshow\n"])?;
    for length in 0..script.len() + 1 {
        let behind = length.saturating_sub(block.len());
        let want = joined(
            alloc,
            &[
                answer_to_the_block(length, block.len()),
                answer_to_the_run(behind),
                answer_to_the_show(behind),
            ],
        )?;
        let bytes = Vec::from_slice(alloc, &script[..length])?;
        let (outcome, written) = lived(&rt, alloc, bytes, Vec::new(alloc), Vec::new(alloc))?;
        assert_eq!(rt; outcome.status, u8::from(length > 0));
        assert_eq!(rt; outcome.taken, length as u64);
        assert!(rt; written.as_slice() == want.as_slice());
    }
    Ok(())
}

// Whether a command behind an accepted block is answered by this line, and refused where it says so.
fn is_answered<R: Threads + Wait + Sync>(
    rt: &R,
    alloc: Global,
    block: &[u8],
    command: &[u8],
    line: &[u8],
) -> Result<bool, Fail> {
    let mut script = Vec::from_slice(alloc, block)?;
    script.extend_from_slice(command)?;
    let mut want = Vec::from_slice(alloc, OK_EDIT)?;
    want.extend_from_slice(line)?;
    let (outcome, written) = lived(rt, alloc, script, Vec::new(alloc), Vec::new(alloc))?;
    let status = u8::from(line.starts_with(b"refused"));
    Ok(outcome.status == status && written.as_slice() == want.as_slice())
}

// Commands, each cut behind each of its bytes, behind a design that stands: a word that is cut is no command's, and a command that
// lacks words or has half a value isn't carried out.
#[test]
fn commands_are_cut(rt: HostRuntime) -> Result<(), Fail> {
    let alloc = rt.alloc();
    let block = joined(
        alloc,
        &[
            b"edit\ntop top\nclock clk\nfile a.v\nmodule top(input clk, input [7:0] d);\n",
            b"reg [7:0] acc = 8'h00;\nalways @(posedge clk) acc <= acc + d;",
            TAIL,
        ],
    )?;
    let table: &[u8] = b"show cycle=0 settled v=1\ntop.acc 00\n";
    let settled: &[u8] = b"settled cycle=0 v=1\n";
    let status: &[u8] =
        b"status v=1 cycle=0 marks=1 units=1\nunit top dc2ed05eb73068c5ae71ce0c12dcc01194a95ef679885db0d359dfe162b85436\n";
    // What is left of the command, and what answers it.
    let rows: [(&[u8], &[u8]); 44] = [
        (b"", b""),
        (b"s", b"refused 60 BadCommand @11 s\n"),
        (b"se", b"refused 60 BadCommand @11 se\n"),
        (b"set", b"refused 60 BadCommand @11 -\n"),
        (b"set ", b"refused 60 BadCommand @11 -\n"),
        (b"set d", b"refused 61 BadValue @11 d\n"),
        (b"set d=", b"refused 61 BadValue @11 d\n"),
        (b"set d=0", b"ok set\n"),
        (b"set d=03", b"ok set\n"),
        (b"r", b"refused 60 BadCommand @11 r\n"),
        (b"ru", b"refused 60 BadCommand @11 ru\n"),
        (b"run", b"refused 60 BadCommand @11 -\n"),
        (b"run ", b"refused 60 BadCommand @11 -\n"),
        (b"run 1", b"ok run cycle=1\n"),
        (b"run 12", b"ok run cycle=12\n"),
        (b"sh", b"refused 60 BadCommand @11 sh\n"),
        (b"sho", b"refused 60 BadCommand @11 sho\n"),
        (b"show", table),
        (b"show ", table),
        (b"show t", table),
        (b"show to", table),
        (b"show top", table),
        (b"show top.", table),
        (b"show top.a", table),
        (b"sett", b"refused 60 BadCommand @11 sett\n"),
        (b"settl", b"refused 60 BadCommand @11 settl\n"),
        (b"settle", settled),
        (b"settle ", settled),
        (b"settle 1", settled),
        (b"settle 10", settled),
        (b"st", b"refused 60 BadCommand @11 st\n"),
        (b"sta", b"refused 60 BadCommand @11 sta\n"),
        (b"stat", b"refused 60 BadCommand @11 stat\n"),
        (b"statu", b"refused 60 BadCommand @11 statu\n"),
        (b"status", status),
        (b"status ", status),
        (b"q", b"refused 60 BadCommand @11 q\n"),
        (b"qu", b"refused 60 BadCommand @11 qu\n"),
        (b"qui", b"refused 60 BadCommand @11 qui\n"),
        (b"quit", b"ok quit\n"),
        (b"e", b"refused 60 BadCommand @11 e\n"),
        (b"ed", b"refused 60 BadCommand @11 ed\n"),
        (b"edi", b"refused 60 BadCommand @11 edi\n"),
        (b"edit", b"refused 66 Unfinished @11 -\n"),
    ];
    for (command, line) in rows {
        assert!(rt; is_answered(&rt, alloc, &block, command, line)?);
    }
    Ok(())
}

// A block with each of its lines, cut behind each byte from `edit` on: it isn't finished, whatever the last line was to be.
#[test]
fn blocks_are_cut(rt: HostRuntime) -> Result<(), Fail> {
    let alloc = rt.alloc();
    let whole: &[u8] =
        b"edit\ntop top\nclock clk\nload a.v\nfile b.v\nmodule\n.\nrename m.a m.b\ncreate m.c=0f\ndelete m.d\nen";
    for length in 4..whole.len() + 1 {
        let script = Vec::from_slice(alloc, &whole[..length])?;
        let (outcome, written) = lived(&rt, alloc, script, Vec::new(alloc), Vec::new(alloc))?;
        assert_eq!(rt; outcome.status, 1);
        assert!(rt; written.as_slice() == b"refused 66 Unfinished @1 -\n".as_slice());
    }
    Ok(())
}

// Three commands, each behind a comment of 65,536 bytes, with a read or a write that fails. Each is answered before more is read.
#[test]
fn the_outside_fails(rt: HostRuntime) -> Result<(), Fail> {
    let alloc = rt.alloc();
    let mut script = Vec::new(alloc);
    for _ in 0..3 {
        for _ in 0..65_535 {
            script.push(b'#')?;
        }
        script.extend_from_slice(b"\nfrob\n")?;
    }
    let lines: &[u8] =
        b"refused 60 BadCommand @2 frob\nrefused 60 BadCommand @4 frob\nrefused 60 BadCommand @6 frob\n";
    // The read and the write that fail, the status, the bytes taken and the bytes written.
    let rows: [(u64, u64, u8, u64, usize); 11] = [
        (0, 9, 3, 0, 0),
        (1, 9, 3, 65_536, 0),
        (2, 9, 3, 131_072, 30),
        (3, 9, 3, 196_608, 60),
        (4, 9, 3, 196_623, 90),
        (5, 9, 1, 196_623, 90),
        (9, 0, 4, 131_072, 0),
        (9, 1, 4, 196_608, 30),
        (9, 2, 4, 196_623, 60),
        (9, 3, 1, 196_623, 90),
        (3, 1, 4, 196_608, 30),
    ];
    for (read, write, status, taken, length) in rows {
        let bytes = Vec::from_slice(alloc, &script)?;
        let (outcome, written) = lived(
            &rt,
            alloc,
            bytes,
            vec![in alloc; read]?,
            vec![in alloc; write]?,
        )?;
        assert_eq!(rt; outcome.status, status);
        assert_eq!(rt; outcome.taken, taken);
        assert!(rt; written.as_slice() == &lines[..length]);
    }
    Ok(())
}

// A read that fails behind all commands leaves their lines; behind `quit` there is none.
#[test]
fn a_read_fails_behind_the_commands(rt: HostRuntime) -> Result<(), Fail> {
    let alloc = rt.alloc();
    let body: &[u8] = b"reg [7:0] acc = 8'h00;\nalways @(posedge clk) acc <= acc + 8'h03;";
    let lines: &[u8] =
        b"ok edit v=1 built=1 kept=0 from=0\nok run cycle=5\nshow cycle=5 settled v=1\ntop.acc 0f\n";
    let script = joined(alloc, &[HEAD, body, TAIL, b"run 5\nshow\n"])?;
    let (outcome, written) = lived(&rt, alloc, script, vec![in alloc; 1]?, Vec::new(alloc))?;
    assert_eq!(rt; outcome.status, 3);
    assert!(rt; written.as_slice() == lines);
    let script = Vec::from_slice(alloc, b"quit\nfrob\n")?;
    let (outcome, written) = lived(&rt, alloc, script, vec![in alloc; 1]?, Vec::new(alloc))?;
    assert_eq!(rt; outcome.status, 0);
    assert_eq!(rt; outcome.taken, 10);
    assert!(rt; written.as_slice() == b"ok quit\n".as_slice());
    Ok(())
}

// A shelf that fails at its first call: the edit is refused, and the same one after it is taken.
fn fails_once<R: Threads + Wait + Sync + Abort>(
    rt: &R,
    alloc: Global,
    workers: &str,
) -> Result<(), Fail> {
    let text = b"module top(input clk);\nreg acc;\nalways @(posedge clk) acc <= 1'b1;\nendmodule\n";
    let texts = vec![in alloc;
        NamedText {
            name: TextBytes::new(Vec::from_slice(alloc, b"a.v")?),
            text: TextBytes::new(Vec::from_slice(alloc, text)?),
        },
    ]?;
    let mut shelf = MemShelf::new(alloc, texts, vec![in alloc; 0]?);
    let block: &[u8] = b"edit\ntop top\nload a.v\nend\n";
    let script = joined(alloc, &[block, block])?;
    let (outcome, written) = shelved(
        rt,
        alloc,
        workers,
        script,
        Vec::new(alloc),
        Vec::new(alloc),
        &mut shelf,
    )?;
    let want = joined(alloc, &[b"refused 67 ShelfFault @3 a.v\n", OK_EDIT])?;
    assert_eq!(rt; outcome.status, 1);
    assert!(rt; written.as_slice() == want.as_slice());
    assert_eq!(rt; shelf.answers().len(), 2);
    Ok(())
}

#[test]
fn a_shelf_fails_once(rt: HostRuntime) -> Result<(), Fail> {
    fails_once(&rt, rt.alloc(), "0")
}

#[test]
fn a_shelf_fails_once_beside_workers(rt: HostRuntime) -> Result<(), Fail> {
    fails_once(&rt, rt.alloc(), "2")
}

// A block, `run 5` and two `show`, with a write that fails: the status and how many bytes were written before it.
#[test]
fn replies_are_written_whole(rt: HostRuntime) -> Result<(), Fail> {
    let alloc = rt.alloc();
    let body: &[u8] = b"reg [7:0] acc = 8'h00;\nalways @(posedge clk) acc <= acc + 8'h03;";
    let lines: &[u8] =
        b"ok edit v=1 built=1 kept=0 from=0\nok run cycle=5\nshow cycle=5 settled v=1\ntop.acc 0f\nshow cycle=5 settled v=1\ntop.acc 0f\n";
    let rows: [(u64, u8, usize); 5] = [(0, 4, 0), (1, 4, 34), (2, 4, 49), (3, 4, 85), (4, 0, 121)];
    for (write, status, length) in rows {
        let script = joined(alloc, &[HEAD, body, TAIL, b"run 5\nshow\nshow\n"])?;
        let (outcome, written) = lived(
            &rt,
            alloc,
            script,
            Vec::new(alloc),
            vec![in alloc; write]?,
        )?;
        assert_eq!(rt; outcome.status, status);
        assert!(rt; written.as_slice() == &lines[..length]);
    }
    Ok(())
}

#[test]
fn limit_of_the_input(rt: HostRuntime) -> Result<(), Fail> {
    let alloc = rt.alloc();
    // How many workers there are, how the script begins before its newlines, its length, the status, and what is written.
    let rows: [(&str, &[u8], usize, u8, &[u8]); 6] = [
        ("0", b"", 67_108_864, 0, b""),
        ("2", b"", 67_108_864, 0, b""),
        ("0", b"", 67_108_865, 6, b""),
        ("2", b"", 67_108_865, 6, b""),
        ("0", b"show", 67_108_865, 6, b"refused 62 NoDesign @1 -\n"),
        ("2", b"show", 67_108_865, 6, b"refused 62 NoDesign @1 -\n"),
    ];
    for (workers, start, length, status, want) in rows {
        let mut script = Vec::with_capacity(alloc, length)?;
        script.extend_from_slice(start)?;
        for _ in start.len()..length {
            script.push(b'\n')?;
        }
        let (outcome, written) = bare(
            &rt,
            alloc,
            workers,
            script,
            Vec::new(alloc),
            Vec::new(alloc),
        )?;
        assert_eq!(rt; outcome.status, status);
        assert_eq!(rt; outcome.taken, length as u64);
        assert!(rt; written.as_slice() == want);
    }
    Ok(())
}

#[test]
fn other_words_are_refused(rt: HostRuntime) -> Result<(), Fail> {
    let alloc = rt.alloc();
    let rows: [[&str; 2]; 3] = [["--workers", "65"], ["--interval", "0"], ["x", "y"]];
    for given in rows {
        let words = words_of(alloc, &given)?;
        let mut source = MemSource::new(Vec::from_slice(alloc, b"show\n")?, Vec::new(alloc));
        let mut sink = MemSink::new(alloc, Vec::new(alloc));
        let mut shelf = SolidShelf::new(alloc, Vec::new(alloc));
        let outcome = live_run(
            &rt,
            alloc,
            &words,
            &mut source,
            &mut sink,
            &mut shelf,
            &OpenGate,
        );
        assert_eq!(rt; outcome.status, 2);
        assert_eq!(rt; outcome.taken, 0);
        assert!(rt; sink.bytes().is_empty());
        assert!(rt; is_right(alloc, &outcome.history)?);
        assert!(rt; outcome.history.entries().is_empty());
    }
    Ok(())
}

// Words that are taken.
#[test]
fn options_are_taken(rt: HostRuntime) -> Result<(), Fail> {
    let alloc = rt.alloc();
    let rows: [&[&str]; 3] = [
        &["--workers", "0", "--interval", "2", "--lookback", "1"],
        &["--lookback=1099511627776", "--workers=64"],
        &["--interval", "1000000000"],
    ];
    for given in rows {
        let words = words_of(alloc, given)?;
        let mut source = MemSource::new(Vec::from_slice(alloc, b"quit\nfrob\n")?, Vec::new(alloc));
        let mut sink = MemSink::new(alloc, Vec::new(alloc));
        let mut shelf = SolidShelf::new(alloc, Vec::new(alloc));
        let outcome = live_run(
            &rt,
            alloc,
            &words,
            &mut source,
            &mut sink,
            &mut shelf,
            &OpenGate,
        );
        assert_eq!(rt; outcome.status, 0);
        assert_eq!(rt; outcome.taken, 10);
        assert!(rt; sink.bytes() == b"ok quit\n".as_slice());
        assert!(rt; is_right(alloc, &outcome.history)?);
        assert!(rt; is_over(&outcome.history));
    }
    Ok(())
}
