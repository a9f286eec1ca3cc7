// The commands that are asked, with an interval of 2 and a lookback of 1. All replies are by hand.
use crate::row::Row;

/// The files of the shelf, by their names: an accumulator, and what adds for it.
pub const FILES: [(&[u8], &[u8]); 2] = [
    (
        b"a.v",
        b"module top(input clk, input [7:0] d, output [7:0] q);\nreg [7:0] acc;\nwire [7:0] next;\nadd x(acc, d, next);\nalways @(posedge clk) acc <= next;\nassign q = acc;\nendmodule\n",
    ),
    (
        b"b.v",
        b"module add(input [7:0] a, input [7:0] b, output [7:0] y);\nassign y = a + b;\nendmodule\n",
    ),
];

/// How many files are loaded, by all blocks.
pub const LOADS: u64 = 3;

// Behind the first block. The digests are of the units' key texts.
const FIRST: &[u8] =
    b"status v=1 cycle=0 marks=1 units=2\nunit top 05b3b3a3f027be4ec0ba43eeaa594be4d61b8bf8dcae4237ae90f6442ad2556d\nunit add ec6ddb3bdbb8c2687449ec51db2d93499cd8f26a9fdf1ea55d4a8ccb130ec040\n";

// Five cycles later. The digests are of the units' key texts.
const AT_FIVE: &[u8] =
    b"status v=1 cycle=5 marks=4 units=2\nunit top 05b3b3a3f027be4ec0ba43eeaa594be4d61b8bf8dcae4237ae90f6442ad2556d\nunit add ec6ddb3bdbb8c2687449ec51db2d93499cd8f26a9fdf1ea55d4a8ccb130ec040\n";

// Behind the edit. The digests are of the units' key texts.
const EDITED: &[u8] =
    b"status v=2 cycle=5 marks=4 units=2\nunit top 0a6cb0fa968b6315de3791cf48f1f60fa617eeaf12d0f4376f325ca337041fd0\nunit add ec6ddb3bdbb8c2687449ec51db2d93499cd8f26a9fdf1ea55d4a8ccb130ec040\n";

// Behind the one that renames. The digests are of the units' key texts.
const RENAMED: &[u8] =
    b"status v=3 cycle=5 marks=4 units=2\nunit top 6e8fa31ead1ba8443d60f263bada0e997083b4696817b61c651330d6944979e2\nunit add ec6ddb3bdbb8c2687449ec51db2d93499cd8f26a9fdf1ea55d4a8ccb130ec040\n";

// Three cycles later. The digests are of the units' key texts.
const AT_EIGHT: &[u8] =
    b"status v=3 cycle=8 marks=6 units=2\nunit top 6e8fa31ead1ba8443d60f263bada0e997083b4696817b61c651330d6944979e2\nunit add ec6ddb3bdbb8c2687449ec51db2d93499cd8f26a9fdf1ea55d4a8ccb130ec040\n";

/// Before the first command.
pub const START: Row = Row {
    command: b"",
    reply: b"",
    status: b"status v=0 cycle=0 marks=0 units=0\n",
    show: b"refused 62 NoDesign @1 -\n",
    between: &[],
    repeats: true,
};

/// Two edits behind cycles are settled, a block is refused, and a register is renamed.
pub const ROWS: [Row; 14] = [
    // A block that loads both files.
    Row {
        command: b"edit\ntop top\nclock clk\nload a.v\nload b.v\nend\n",
        reply: b"ok edit v=1 built=2 kept=0 from=0\n",
        status: FIRST,
        show: b"show cycle=0 settled v=1\ntop.acc 00\n",
        between: &[],
        repeats: false,
    },
    Row {
        command: b"set d=03\n",
        reply: b"ok set\n",
        status: FIRST,
        show: b"show cycle=0 settled v=1\ntop.acc 00\n",
        between: &[],
        repeats: true,
    },
    // Marks at 0, 2, 4 and 5.
    Row {
        command: b"run 5\n",
        reply: b"ok run cycle=5\n",
        status: AT_FIVE,
        show: b"show cycle=5 settled v=1\ntop.acc 0f\n",
        between: &[],
        repeats: false,
    },
    // A block that is refused once its file is loaded.
    Row {
        command: b"edit\nload b.v\nfile a.v\nmodule top(input clk);\nreg [7:0] acc = 8'h00;\nalways @(posedge clk) acc <= acc + e;\nendmodule\n.\nend\n",
        reply: b"refused 29 UnknownName a.v:3:36 e\n",
        status: AT_FIVE,
        show: b"show cycle=5 settled v=1\ntop.acc 0f\n",
        between: &[],
        repeats: true,
    },
    // One more in each cycle, from the mark at 4.
    Row {
        command: b"edit\nfile a.v\nmodule top(input clk, input [7:0] d, output [7:0] q);\nreg [7:0] acc;\nwire [7:0] next;\nadd x(acc, d, next);\nalways @(posedge clk) acc <= next + 8'd1;\nassign q = acc;\nendmodule\n.\nend\n",
        reply: b"ok edit v=2 built=1 kept=1 from=4\n",
        status: EDITED,
        show: b"show cycle=5 estimate v=2 settled_to=0\ntop.acc 10\n",
        between: &[],
        repeats: false,
    },
    // Three passes, each of which makes one link more lead.
    Row {
        command: b"settle\n",
        reply: b"settled cycle=5 v=2\n",
        status: EDITED,
        show: b"show cycle=5 settled v=2\ntop.acc 14\n",
        between: &[
            b"show cycle=5 estimate v=2 settled_to=2\ntop.acc 10\n",
            b"show cycle=5 estimate v=2 settled_to=4\ntop.acc 10\n",
        ],
        repeats: true,
    },
    // A register under another name, and nothing more.
    Row {
        command: b"edit\nfile a.v\nmodule top(input clk, input [7:0] d, output [7:0] q);\nreg [7:0] sum;\nwire [7:0] next;\nadd x(sum, d, next);\nalways @(posedge clk) sum <= next;\nassign q = sum;\nendmodule\n.\nrename top.acc top.sum\nend\n",
        reply: b"ok edit v=3 built=1 kept=1 from=4\n",
        status: RENAMED,
        show: b"show cycle=5 estimate v=3 settled_to=0\ntop.sum 13\n",
        between: &[],
        repeats: false,
    },
    Row {
        command: b"show top.s\n",
        reply: b"show cycle=5 estimate v=3 settled_to=0\ntop.sum 13\n",
        status: RENAMED,
        show: b"show cycle=5 estimate v=3 settled_to=0\ntop.sum 13\n",
        between: &[],
        repeats: true,
    },
    Row {
        command: b"settle\n",
        reply: b"settled cycle=5 v=3\n",
        status: RENAMED,
        show: b"show cycle=5 settled v=3\ntop.sum 0f\n",
        between: &[
            b"show cycle=5 estimate v=3 settled_to=2\ntop.sum 13\n",
            b"show cycle=5 estimate v=3 settled_to=4\ntop.sum 13\n",
        ],
        repeats: true,
    },
    Row {
        command: b"set d=04\n",
        reply: b"ok set\n",
        status: RENAMED,
        show: b"show cycle=5 settled v=3\ntop.sum 0f\n",
        between: &[],
        repeats: true,
    },
    Row {
        command: b"run 3\n",
        reply: b"ok run cycle=8\n",
        status: AT_EIGHT,
        show: b"show cycle=8 settled v=3\ntop.sum 1b\n",
        between: &[],
        repeats: false,
    },
    Row {
        command: b"run 0\n",
        reply: b"refused 64 RunRange @1 -\n",
        status: AT_EIGHT,
        show: b"show cycle=8 settled v=3\ntop.sum 1b\n",
        between: &[],
        repeats: true,
    },
    Row {
        command: b"settle\n",
        reply: b"settled cycle=8 v=3\n",
        status: AT_EIGHT,
        show: b"show cycle=8 settled v=3\ntop.sum 1b\n",
        between: &[],
        repeats: true,
    },
    Row {
        command: b"quit\n",
        reply: b"ok quit\n",
        status: AT_EIGHT,
        show: b"show cycle=8 settled v=3\ntop.sum 1b\n",
        between: &[],
        repeats: true,
    },
];
