// The scripts that are run: versions of one design with an input and a register, to which each cycle adds the input and what the version adds.
ghost use Rattle.std.specs.Prelude.{◌≤◌};

use ls_text::NoMemory;
use std::alloc::Global;

/// The first version, which adds nothing more, and three a cycle as input.
pub const OPEN: &[u8] =
    b"edit\ntop top\nclock clk\nfile a.v\nmodule top(input clk, input [7:0] d, output [7:0] q);\nreg [7:0] acc;\nalways @(posedge clk) acc <= acc + d;\nassign q = acc;\nendmodule\n.\nend\nset d=03\n";

/// What answers that.
pub const OPEN_LINES: &[u8] = b"ok edit v=1 built=1 kept=0 from=0\nok set\n";

/// Five cycles.
pub const RUN: &[u8] = b"run 5\n";

/// What answers that.
pub const RUN_LINES: &[u8] = b"ok run cycle=5\n";

/// The version that follows, which adds one more.
pub const EDIT: &[u8] =
    b"edit\nfile a.v\nmodule top(input clk, input [7:0] d, output [7:0] q);\nreg [7:0] acc;\nalways @(posedge clk) acc <= acc + d + 8'd1;\nassign q = acc;\nendmodule\n.\nend\n";

/// What answers that behind five cycles, in a book with an interval of 2 and a lookback of 1: the links up to the cycle are open.
pub const EDIT_LINES: &[u8] = b"ok edit v=2 built=1 kept=0 from=4\n";

/// A version behind that, which adds two more.
pub const AGAIN: &[u8] =
    b"edit\nfile a.v\nmodule top(input clk, input [7:0] d, output [7:0] q);\nreg [7:0] acc;\nalways @(posedge clk) acc <= acc + d + 8'd2;\nassign q = acc;\nendmodule\n.\nend\n";

/// What answers that.
pub const AGAIN_LINES: &[u8] = b"ok edit v=3 built=1 kept=0 from=4\n";

/// How the display begins that is settled then.
pub const SETTLED: &[u8] = b"show cycle=5 settled";

/// That display: five cycles of four each.
pub const DISPLAY: &[u8] = b"show cycle=5 settled v=2\ntop.acc 14\n";

/// The bytes of some parts, one after another.
pub fn joined(alloc: Global, parts: &[&[u8]]) -> Result<Vec<u8>, NoMemory> {
    let mut whole = Vec::new(alloc);
    for part in parts {
        whole.extend_from_slice(part)?;
    }
    Ok(whole)
}

/// What the n-th of many edits adds.
fn added(n: u32) -> u8
    ensures { result ≤ 6 }
{
    (n % 7) as u8
}

/// The many edits from this number to before that one, with another input and a cycle more behind each fifth one.
pub fn many_edits(alloc: Global, from: u32, to: u32) -> Result<Vec<u8>, NoMemory> {
    let mut script = Vec::new(alloc);
    for n in from..to {
        script.extend_from_slice(
            b"edit\nfile a.v\nmodule top(input clk, input [7:0] d, output [7:0] q);\nreg [7:0] acc;\nalways @(posedge clk) acc <= acc + d + 8'd",
        )?;
        script.push(b'0' + added(n))?;
        script.extend_from_slice(b";\nassign q = acc;\nendmodule\n.\nend\n")?;
        if n % 5 == 4 {
            script.extend_from_slice(b"set d=")?;
            script.push(b'0' + (n % 10) as u8)?;
            script.extend_from_slice(b"\nrun 1\n")?;
        }
    }
    Ok(script)
}

/// What each version adds beside the input, up to behind so many of these edits.
pub fn many_added(alloc: Global, edits: u32) -> Result<Vec<u8>, NoMemory> {
    let mut adds = vec![in alloc; 0u8]?;
    for n in 0..edits {
        adds.push(added(n))?;
    }
    Ok(adds)
}
