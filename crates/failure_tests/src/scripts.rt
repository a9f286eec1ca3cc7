// The scripts that are run, command by command, with what answers each, without workers, under an interval of 2 and a lookback of 1.
use ls_text::NoMemory;
use std::alloc::Global;

/// A command and its reply.
pub type Asked = (&'static [u8], &'static [u8]);

/// A design with a register to which each cycle adds the input.
pub const BLOCK: &[u8] =
    b"edit\ntop top\nclock clk\nfile a.v\nmodule top(input clk, input [7:0] d, output [7:0] q);\nreg [7:0] acc;\nalways @(posedge clk) acc <= acc + d;\nassign q = acc;\nendmodule\n.\nend\n";

/// One that adds one more.
pub const MORE: &[u8] =
    b"edit\nfile a.v\nmodule top(input clk, input [7:0] d, output [7:0] q);\nreg [7:0] acc;\nalways @(posedge clk) acc <= acc + d + 8'd1;\nassign q = acc;\nendmodule\n.\nend\n";

/// The first one, its register under another name.
pub const RENAMED: &[u8] =
    b"edit\nfile a.v\nmodule top(input clk, input [7:0] d, output [7:0] q);\nreg [7:0] sum;\nalways @(posedge clk) sum <= sum + d;\nassign q = sum;\nendmodule\n.\nrename top.acc top.sum\nend\n";

pub const ACCEPTED: &[u8] = b"ok edit v=1 built=1 kept=0 from=0\n";

/// Five cycles, one more in each behind the edit, and two settles.
pub const SETTLED: [Asked; 9] = [
    (BLOCK, ACCEPTED),
    (b"set d=03\n", b"ok set\n"),
    (b"run 5\n", b"ok run cycle=5\n"),
    (b"show\n", b"show cycle=5 settled v=1\ntop.acc 0f\n"),
    (MORE, b"ok edit v=2 built=1 kept=0 from=4\n"),
    (
        b"show\n",
        b"show cycle=5 estimate v=2 settled_to=0\ntop.acc 10\n",
    ),
    (b"settle 2\n", b"unsettled settled_to=4\n"),
    (b"settle 1\n", b"settled cycle=5 v=2\n"),
    (b"show\n", b"show cycle=5 settled v=2\ntop.acc 14\n"),
];

/// Five cycles, and the register under another name.
pub const CARRIED: [Asked; 8] = [
    (BLOCK, ACCEPTED),
    (b"set d=03\n", b"ok set\n"),
    (b"run 5\n", b"ok run cycle=5\n"),
    (b"show\n", b"show cycle=5 settled v=1\ntop.acc 0f\n"),
    (RENAMED, b"ok edit v=2 built=1 kept=0 from=4\n"),
    (
        b"show\n",
        b"show cycle=5 estimate v=2 settled_to=0\ntop.sum 0f\n",
    ),
    (b"settle 2\n", b"settled cycle=5 v=2\n"),
    (b"show\n", b"show cycle=5 settled v=2\ntop.sum 0f\n"),
];

/// The replies to the first commands, so many of them.
pub fn replies(alloc: Global, asked: &[Asked], count: usize) -> Result<Vec<u8>, NoMemory> {
    let mut lines = Vec::new(alloc);
    for (_, reply) in asked.iter().take(count) {
        lines.extend_from_slice(reply)?;
    }
    Ok(lines)
}

/// The commands of a script.
pub fn script(alloc: Global, asked: &[Asked]) -> Result<Vec<u8>, NoMemory> {
    let mut bytes = Vec::new(alloc);
    for (command, _) in asked {
        bytes.extend_from_slice(command)?;
    }
    Ok(bytes)
}
