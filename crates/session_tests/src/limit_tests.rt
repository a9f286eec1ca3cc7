// Limits that no script reaches in a test's time: sessions with small ones, turn by turn; and files that a shelf holds. The lines are the same for every
// schedule, where two workers stand beside.
ghost use Rattle.std.specs.Prelude.{◌≡◌};

use crate::held_source::HeldSource;
use crate::played::Played;
use crate::scripted::played;
use book_history::rooms::Rooms;
use live_session::Limits;
use ls_port::{MemShelf, NamedText, OpenGate, SolidSource};
use ls_text::{NoMemory, TextBytes};
use std::alloc::Global;
use std::sync::Wait;
use std::test::Fail;
use std::thread::Threads;
use test_gates::HoldingGate;

// A block with an accumulator of an input, eleven lines long.
const BLOCK: &[u8] =
    b"edit\ntop top\nclock clk\nfile a.v\nmodule top(input clk, input [7:0] d, output [7:0] q);\nreg [7:0] acc;\nalways @(posedge clk) acc <= acc + d;\nassign q = acc;\nendmodule\n.\nend\n";

// The same file, with an accumulator of twice the input.
const NEXT_BLOCK: &[u8] =
    b"edit\nfile a.v\nmodule top(input clk, input [7:0] d, output [7:0] q);\nreg [7:0] acc;\nalways @(posedge clk) acc <= acc + d + d;\nassign q = acc;\nendmodule\n.\nend\n";

const TEXT: &[u8] =
    b"module top(input clk, input [7:0] d, output [7:0] q);\nreg [7:0] acc;\nalways @(posedge clk) acc <= acc + d;\nassign q = acc;\nendmodule\n";

const ACCEPTED: &[u8] = b"ok edit v=1 built=1 kept=0 from=0\n";

// How many entries the workers may make.
const WORKERS_ROOM: u32 = 100;

// How many workers there are.
const WORKERS: [u16; 2] = [0, 2];

fn limits(cycles: u64, stimulus: u64, session: u32, workers: u32) -> Limits
    ensures { result.cycles ≡ cycles }
{
    Limits {
        cycles,
        stimulus,
        rooms: Rooms { session, workers },
    }
}

// What comes of a script without files in a session of at most ten cycles with these limits.
fn bare<R: Threads + Wait + Sync>(
    rt: &R,
    alloc: Global,
    stimulus: u64,
    rooms: Rooms,
    workers: u16,
    script: &[u8],
) -> Result<Played, Fail> {
    let shelf = MemShelf::new(alloc, Vec::new(alloc), Vec::new(alloc));
    let source = SolidSource::new(Vec::from_slice(alloc, script)?);
    let limits = limits(10, stimulus, rooms.session, rooms.workers);
    played(rt, alloc, limits, workers, &OpenGate, source, shelf)
}

fn joined(alloc: Global, parts: &[&[u8]]) -> Result<Vec<u8>, NoMemory> {
    let mut whole = Vec::new(alloc);
    for part in parts {
        whole.extend_from_slice(part)?;
    }
    Ok(whole)
}

fn held(alloc: Global, name: &[u8], text: Vec<u8>) -> Result<NamedText, NoMemory> {
    Ok(NamedText {
        name: TextBytes::new(Vec::from_slice(alloc, name)?),
        text: TextBytes::new(text),
    })
}

#[test]
fn limits_of_a_session(rt: HostRuntime) -> Result<(), Fail> {
    let alloc = rt.alloc();
    // Of a session of at most ten cycles: the most names set and entries, what follows the block, and the lines behind the first.
    let rows: [(u64, u32, &[u8], &[u8]); 10] = [
        (
            100,
            100,
            b"run 10\nrun 1\n",
            b"ok run cycle=10\nrefused 65 CycleLimit @13 -\n",
        ),
        // What is refused leaves no cycle behind.
        (
            100,
            100,
            b"set d=1\nrun 6\nrun 5\nrun 4\nshow\n",
            b"ok set\nok run cycle=6\nrefused 65 CycleLimit @14 -\nok run cycle=10\nshow cycle=10 settled v=1\ntop.acc 0a\n",
        ),
        (
            1,
            100,
            b"set d=1\nrun 1\nset d=2\nrun 1\n",
            b"ok set\nok run cycle=1\nok set\nrefused 69 StimulusFull @15 -\n",
        ),
        // Nor a row: the cycles that follow are those of the old row.
        (
            1,
            100,
            b"set d=1\nrun 2\nset d=2\nrun 3\nset d=1\nrun 1\nshow\n",
            b"ok set\nok run cycle=2\nok set\nrefused 69 StimulusFull @15 -\nok set\nok run cycle=3\nshow cycle=3 settled v=1\ntop.acc 03\n",
        ),
        // Equal rows behind each other are counted once; the same row behind another one is counted again.
        (
            2,
            100,
            b"set d=1\nrun 1\nset d=1\nrun 1\nset d=2\nrun 1\nset d=1\nrun 1\n",
            b"ok set\nok run cycle=1\nok set\nok run cycle=2\nok set\nok run cycle=3\nok set\nrefused 69 StimulusFull @19 -\n",
        ),
        // A name that is set to 0 is set.
        (
            1,
            100,
            b"run 1\nset d=0\nrun 1\nset d=1\nrun 1\n",
            b"ok run cycle=1\nok set\nok run cycle=2\nok set\nrefused 69 StimulusFull @16 -\n",
        ),
        (
            100,
            2,
            b"show\nshow\n",
            b"show cycle=0 settled v=1\ntop.acc 00\nrefused 68 HistoryFull @13 -\n",
        ),
        // 65 comes before 69 and 68.
        (
            1,
            2,
            b"set d=1\nrun 10\nset d=2\nrun 1\n",
            b"ok set\nok run cycle=10\nok set\nrefused 65 CycleLimit @15 -\n",
        ),
        // 69 comes before 68, and a refusal is charged nothing.
        (
            1,
            2,
            b"run 0\nset d=1\nrun 1\nset d=2\nrun 1\nshow\n",
            b"refused 64 RunRange @12 -\nok set\nok run cycle=1\nok set\nrefused 69 StimulusFull @16 -\nrefused 68 HistoryFull @17 -\n",
        ),
        (
            100,
            1,
            b"run 1\nset d=1\n",
            b"refused 68 HistoryFull @12 -\nok set\n",
        ),
    ];
    for (stimulus, session, script, lines) in rows {
        let script = joined(alloc, &[BLOCK, script])?;
        let wanted = joined(alloc, &[ACCEPTED, lines])?;
        for workers in WORKERS {
            let rooms = Rooms {
                session,
                workers: WORKERS_ROOM,
            };
            let played = bare(&rt, alloc, stimulus, rooms, workers, &script)?;
            assert!(rt; played.lines.as_slice() == wanted.as_slice());
        }
    }
    Ok(())
}

// An edit behind six cycles is simulated from the mark at cycle 4, where the old design had 4: twice more makes 8. A pass runs the new design from reset
// to that mark, and another one from there on. Beside workers the estimate may be settled, and one pass may be enough, so this is without them.
#[test]
fn passes_in_a_room(rt: HostRuntime) -> Result<(), Fail> {
    let alloc = rt.alloc();
    let script = joined(
        alloc,
        &[
            BLOCK,
            b"set d=1\nrun 6\n",
            NEXT_BLOCK,
            b"show\nsettle 1\nsettle\nshow\nshow\n",
        ],
    )?;
    // Edits, a run and displays are charged 1 each, the settles 3 and 5.
    let rooms = Rooms {
        session: 13,
        workers: 0,
    };
    let played = bare(&rt, alloc, 100, rooms, 0, &script)?;
    let wanted: &[u8] =
        b"ok edit v=1 built=1 kept=0 from=0\nok set\nok run cycle=6\nok edit v=2 built=1 kept=0 from=4\nshow cycle=6 estimate v=2 settled_to=0\ntop.acc 08\nunsettled settled_to=4\nsettled cycle=6 v=2\nshow cycle=6 settled v=2\ntop.acc 0c\nrefused 68 HistoryFull @27 -\n";
    assert!(rt; played.lines.as_slice() == wanted);
    Ok(())
}

// The same edit, settled at once: the settle is charged 5, whatever workers have done and however much room they have. A ticket takes two entries of it.
#[test]
fn passes_beside_workers(rt: HostRuntime) -> Result<(), Fail> {
    let alloc = rt.alloc();
    let script = joined(
        alloc,
        &[
            BLOCK,
            b"set d=1\nrun 6\n",
            NEXT_BLOCK,
            b"settle\nshow\nshow\n",
        ],
    )?;
    let wanted: &[u8] =
        b"ok edit v=1 built=1 kept=0 from=0\nok set\nok run cycle=6\nok edit v=2 built=1 kept=0 from=4\nsettled cycle=6 v=2\nshow cycle=6 settled v=2\ntop.acc 0c\nrefused 68 HistoryFull @25 -\n";
    for room in 0..6 {
        for workers in WORKERS {
            let rooms = Rooms {
                session: 9,
                workers: room,
            };
            let played = bare(&rt, alloc, 100, rooms, workers, &script)?;
            assert!(rt; played.lines.as_slice() == wanted);
        }
    }
    Ok(())
}

// A worker holds its ticket as the session's room is full: what has an entry is refused, and what has none isn't.
#[test]
fn a_full_room_beside_a_ticket(rt: HostRuntime) -> Result<(), Fail> {
    let alloc = rt.alloc();
    let gate = HoldingGate::new(1);
    let script = joined(alloc, &[BLOCK, b"set d=1\nrun 6\n", NEXT_BLOCK])?;
    let source = HeldSource {
        script: SolidSource::new(script),
        gate: &gate,
        then: SolidSource::new(Vec::from_slice(
            alloc,
            b"show\nrun 1\nsettle\nset d=2\nedit\nfile a.v\n.\nend\n",
        )?),
    };
    let shelf = MemShelf::new(alloc, Vec::new(alloc), Vec::new(alloc));
    let limits = limits(10, 100, 3, WORKERS_ROOM);
    let played = played(&rt, alloc, limits, 2, &gate, source, shelf)?;
    let wanted: &[u8] =
        b"ok edit v=1 built=1 kept=0 from=0\nok set\nok run cycle=6\nok edit v=2 built=1 kept=0 from=4\nrefused 68 HistoryFull @23 -\nrefused 68 HistoryFull @24 -\nrefused 68 HistoryFull @25 -\nok set\nrefused 68 HistoryFull @27 -\n";
    assert!(rt; played.lines.as_slice() == wanted);
    assert!(rt; gate.has_let_go());
    Ok(())
}

// A block that is refused for want of room loads nothing.
#[test]
fn a_full_room_loads_nothing(rt: HostRuntime) -> Result<(), Fail> {
    let alloc = rt.alloc();
    for workers in WORKERS {
        let rooms = Rooms {
            session: 0,
            workers: WORKERS_ROOM,
        };
        let script: &[u8] = b"edit\ntop top\nload a.v\nend\n";
        let played = bare(&rt, alloc, 100, rooms, workers, script)?;
        assert!(rt; played.lines.as_slice() == b"refused 68 HistoryFull @1 -\n".as_slice());
        assert_eq!(rt; played.answers, 0);
    }
    Ok(())
}

// The block's file, and the same with spaces up to the longest text that is taken, and with one more.
fn texts(alloc: Global) -> Result<Vec<NamedText>, NoMemory> {
    let mut longest = Vec::from_slice(alloc, TEXT)?;
    for _ in TEXT.len()..4_194_304 {
        longest.push(b' ')?;
    }
    let mut longer = Vec::from_slice(alloc, &longest)?;
    longer.push(b' ')?;
    let mut texts = Vec::new(alloc);
    texts.push(held(alloc, b"a.v", Vec::from_slice(alloc, TEXT)?)?)?;
    texts.push(held(alloc, b"longest.v", longest)?)?;
    texts.push(held(alloc, b"longer.v", longer)?)?;
    Ok(texts)
}

// A shelf that fails once, a name that it doesn't hold, and texts at the limit of their length.
#[test]
fn files_of_a_shelf(rt: HostRuntime) -> Result<(), Fail> {
    let alloc = rt.alloc();
    let script: &[u8] =
        b"edit\ntop top\nload a.v\nload longer.v\nend\nedit\ntop top\nload b.v\nend\nedit\ntop top\nload longer.v\nload b.v\nend\nedit\ntop top\nload longest.v\nend\nshow\n";
    let wanted: &[u8] =
        b"refused 67 ShelfFault @3 a.v\nrefused 67 ShelfFault @8 b.v\nrefused 10 TextTooLong @12 longer.v\nok edit v=1 built=1 kept=0 from=0\nshow cycle=0 settled v=1\ntop.acc 00\n";
    for workers in WORKERS {
        let shelf = MemShelf::new(alloc, texts(alloc)?, vec![in alloc; 0]?);
        let source = SolidSource::new(Vec::from_slice(alloc, script)?);
        let limits = limits(10, 100, 100, WORKERS_ROOM);
        let played = played(&rt, alloc, limits, workers, &OpenGate, source, shelf)?;
        assert!(rt; played.lines.as_slice() == wanted);
        assert_eq!(rt; played.answers, 4);
    }
    Ok(())
}
