// Each call of a shelf fails in turn, or wants memory, under three blocks that load the same three files.
use crate::dry_shelf::DryShelf;
use crate::running::{ran, recorded};
use book_history::entry::Entry;
use livesim::Outcome;
use ls_port::{MemShelf, NamedText, Shelf, SolidSink, SolidSource};
use ls_text::{NoMemory, TextBytes};
use std::alloc::Global;
use std::process::Abort;
use std::sync::Wait;
use std::test::Fail;
use std::thread::Threads;

/// The files, by their names.
const FILES: [(&[u8], &[u8]); 3] = [
    (
        b"a.v",
        b"module a(input clk);\nreg [7:0] r = 8'h01;\nendmodule\n",
    ),
    (
        b"b.v",
        b"module b(input clk);\nreg [7:0] r = 8'h02;\nendmodule\n",
    ),
    (
        b"c.v",
        b"module top(input clk);\na x(clk);\nb y(clk);\nendmodule\n",
    ),
];

/// A block that loads all of them, and what asks for the state behind it.
const BLOCK: &[u8] = b"edit\ntop top\nload a.v\nload b.v\nload c.v\nend\nstatus\nshow\n";

/// How many lines these are, and at which the first load stands.
const LINES: usize = 8;

const FIRST: usize = 3;

/// How many blocks there are, and how many loads each has.
const BLOCKS: usize = 3;

const LOADS: usize = 3;

/// The units, each with the digest of its key text.
const UNITS: &str =
    "unit top 3c8f7e4758b2aa89097094ba65172bb9268eb27e20284450a51132fd051bb895\nunit a 1b2818b78a41305dca713612be990435b5e19c7a5ef13234bd069560ba0406df\nunit b e08a05098971859487fa221ded31312006509a69b3a34c79717f73cdb1d8e7d2\n";

/// The shelf's texts.
fn texts(alloc: Global) -> Result<Vec<NamedText>, NoMemory> {
    let mut texts = Vec::new(alloc);
    for (name, text) in FILES {
        texts.push(NamedText {
            name: TextBytes::new(Vec::from_slice(alloc, name)?),
            text: TextBytes::new(Vec::from_slice(alloc, text)?),
        })?;
    }
    Ok(texts)
}

/// The script of all blocks over this shelf, and its lines.
fn run_over<R: Threads + Wait + Sync, F: Shelf>(
    rt: &R,
    alloc: Global,
    shelf: &mut F,
) -> Result<(Outcome, Vec<u8>), Fail> {
    let mut script = Vec::new(alloc);
    for _ in 0..BLOCKS {
        script.extend_from_slice(BLOCK)?;
    }
    let mut source = SolidSource::new(script);
    let mut sink = SolidSink::new(alloc);
    let outcome = ran(rt, alloc, &mut source, &mut sink, shelf)?;
    Ok((outcome, Vec::from_slice(alloc, sink.bytes())?))
}

/// The replies to `status` and `show` behind a block, at so many accepted ones; the second stands at this line.
fn state(alloc: Global, version: usize, line: usize) -> Result<String, NoMemory> {
    if version == 0 {
        return Ok(format!(in alloc;
            "status v=0 cycle=0 marks=0 units=0\nrefused 62 NoDesign @{line} -\n"
        )?);
    }
    Ok(format!(in alloc;
        "status v={version} cycle=0 marks=1 units=3\n{UNITS}show cycle=0 settled v={version}\ntop.x.r 01\ntop.y.r 02\n"
    )?)
}

/// The name of the file of a load.
fn name_of(load: usize) -> &'static str {
    match load {
        0 => "a.v",
        1 => "b.v",
        _ => "c.v",
    }
}

/// The reply to a block that is accepted as this version.
fn accepted(alloc: Global, version: usize) -> Result<String, NoMemory> {
    let built = if version == 1 {
        "built=3 kept=0"
    } else {
        "built=0 kept=3"
    };
    Ok(format!(in alloc; "ok edit v={version} {built} from=0\n")?)
}

/// All replies where the call of this number fails: the block whose load it is is refused, and the two others are accepted.
fn lines_where_one_fails(alloc: Global, call: usize) -> Result<String, NoMemory> {
    let mut lines = String::new(alloc);
    let mut version = 0usize;
    for block in 0..BLOCKS {
        let before = block.saturating_mul(LINES);
        let first = block.saturating_mul(LOADS);
        if first <= call && call < first.saturating_add(LOADS) {
            let load = call.saturating_sub(first);
            let line = before.saturating_add(FIRST).saturating_add(load);
            let name = name_of(load);
            lines.push_str(format!(in alloc; "refused 67 ShelfFault @{line} {name}\n")?.as_str())?;
        } else {
            version = version.saturating_add(1);
            lines.push_str(accepted(alloc, version)?.as_str())?;
        }
        lines.push_str(state(alloc, version, before.saturating_add(LINES))?.as_str())?;
    }
    Ok(lines)
}

/// A shelf whose call of this number fails, and how many answers it has given then.
fn fails_at<R: Threads + Wait + Sync + Abort>(
    rt: &R,
    alloc: Global,
    call: usize,
) -> Result<(), Fail> {
    let mut shelf = MemShelf::new(alloc, texts(alloc)?, vec![in alloc; call as u64]?);
    let (outcome, written) = run_over(rt, alloc, &mut shelf)?;
    let wanted = lines_where_one_fails(alloc, call)?;
    assert!(rt; written.as_slice() == wanted.as_bytes());
    let is_reached = call < BLOCKS * LOADS;
    assert_eq!(rt; outcome.status, u8::from(is_reached));
    // The loads behind the one that fails aren't reached.
    let lost = if is_reached {
        LOADS - 1 - call % LOADS
    } else {
        0
    };
    assert_eq!(rt; shelf.answers().len(), BLOCKS * LOADS - lost);
    Ok(())
}

// The ninth call is the last one, so one more fails nowhere.
#[test]
fn each_call_of_a_shelf_fails_in_turn(rt: HostRuntime) -> Result<(), Fail> {
    let alloc = rt.alloc();
    for call in 0..BLOCKS * LOADS + 1 {
        fails_at(&rt, alloc, call)?;
    }
    Ok(())
}

/// The entries of so many accepted blocks, each with its display, and the close.
fn entries(alloc: Global, blocks: usize) -> Result<Vec<Entry>, NoMemory> {
    let mut found = Vec::new(alloc);
    for block in 0..blocks as u64 {
        let version = block.saturating_add(1);
        if version == 1 {
            found.push(Entry::Open { version })?;
        } else {
            found.push(Entry::Reload { version, from: 0 })?;
        }
        found.push(Entry::Show { settled_to: None })?;
    }
    found.push(Entry::Close)?;
    Ok(found)
}

/// The replies to so many accepted blocks.
fn lines_of_blocks(alloc: Global, blocks: usize) -> Result<String, NoMemory> {
    let mut lines = String::new(alloc);
    for block in 0..blocks {
        let version = block.saturating_add(1);
        lines.push_str(accepted(alloc, version)?.as_str())?;
        lines.push_str(state(alloc, version, 0)?.as_str())?;
    }
    Ok(lines)
}

// A shelf that wants memory ends the run, and nothing of its block stands.
#[test]
fn each_call_of_a_shelf_wants_memory_in_turn(rt: HostRuntime) -> Result<(), Fail> {
    let alloc = rt.alloc();
    for call in 0..BLOCKS * LOADS + 1 {
        let mut shelf = DryShelf {
            shelf: MemShelf::new(alloc, texts(alloc)?, Vec::new(alloc)),
            calls: 0,
            dry: call as u64,
        };
        let (outcome, written) = run_over(&rt, alloc, &mut shelf)?;
        let blocks = call / LOADS;
        let status = if blocks < BLOCKS { 5 } else { 0 };
        assert_eq!(rt; outcome.status, status);
        assert!(rt; written.as_slice() == lines_of_blocks(alloc, blocks)?.as_bytes());
        assert!(rt; recorded(alloc, &outcome.history)? == entries(alloc, blocks)?);
        assert_eq!(rt; shelf.shelf.answers().len(), call.min(BLOCKS * LOADS));
    }
    Ok(())
}
