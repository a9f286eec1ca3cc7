// Data inputs that rows set, and the registers behind them.
ghost use Rattle.std.specs.Prelude.{◌≡◌, ◌≤◌, ◌<◌, length};
ghost use Rattle.stimulus.specs.Records.{rows_of};

use crate::designs::{assign, later, made, plus, values_of};
use cycle_eval::Design;
use ls_text::{NameId, NoMemory};
use machine::Machine;
use machine::steps::Steps;
use state_layout::SlotState;
use std::alloc::Global;
use std::marker::Brand;
use std::process::Abort;
use std::sync::Arc;
use std::sync::ledger::{Blank, Ledger};
use std::test::Fail;
use stimulus::{Record, RecordRefusal, Row};
use typed_ir::{ArithmeticOperator, BinaryOperator, SignalId, Typed};

// s1 + s3, of eight bits
fn both(alloc: Global) -> Result<Typed, NoMemory> {
    let sum = BinaryOperator::Arithmetic(ArithmeticOperator::Sum);
    Typed::binary(
        alloc,
        sum,
        Typed::name(SignalId(1), 8),
        Typed::name(SignalId(3), 8),
    )
}

// input [3:0] d; input [7:0] e; reg [3:0] p = 7; reg [7:0] q = 7; wire [3:0] w = d + 1;
// always @(posedge clk) p <= w; always @(posedge clk) q <= q + e;
// Their names have the numbers 0 (p), 1 (q), 2 (d), 3 (e) and 4 (w).
fn two_inputs(rt: &impl Abort, alloc: Global) -> Result<Design, NoMemory> {
    let nodes = vec![in alloc; assign(alloc, 4, 4, plus(alloc, 2, 4, 1)?)?]?;
    let clocked = vec![in alloc;
        later(alloc, 0, 4, Typed::name(SignalId(4), 4))?,
        later(alloc, 1, 8, both(alloc)?)?,
    ]?;
    let signals: &[(u8, u128)] = &[(4, 7), (8, 7), (4, 0), (8, 0), (4, 0)];
    made(rt, alloc, signals, &[0, 1], &[2, 3], nodes, clocked)
}

// The row that sets these names to these values.
fn row_of(alloc: Global, list: &[(u64, u128)]) -> Result<Row, NoMemory> {
    let mut row = Row::new(alloc);
    for (name, value) in list {
        row.put(NameId(*name), *value)?;
    }
    Ok(row)
}

// A record of these rows, each for so many cycles.
fn record_of(
    rt: &impl Abort,
    alloc: Global,
    list: &[(&[(u64, u128)], u64)],
) -> Result<Record, RecordRefusal> {
    let mut record = Record::new(alloc, 1000);
    for (values, cycles) in list {
        assert!(rt; 1 <= *cycles && *cycles <= 1000);
        assert!(rt; record.len() <= 1000);
        record.append(Arc::new(alloc, row_of(alloc, values)?)?, *cycles)?;
    }
    Ok(record)
}

// The state after the cycles of a record, of which those before a cycle are run first and the others then.
fn state_in_two_runs<L: Ledger>(
    alloc: Global,
    design: &Design,
    record: &Record,
    middle: u64,
    blank: Blank,
) -> Result<SlotState, NoMemory>
    requires middle { middle ≤ length (rows_of record.now) }
    requires name { blank.name ≡ L.name }
    requires parts { blank.parts ≡ L.parts }
    requires some { 0 < blank.parts }
{
    let mut steps = Steps::<L>::start(blank);
    let end = record.len();
    let first = record.slice(alloc, 0, middle)?;
    let others = record.slice(alloc, middle, end)?;
    let start = design.reset(alloc)?;
    let state = design.advance(alloc, &first, &start, 0, middle, &mut steps)?;
    design.advance(alloc, &others, &state, middle, end, &mut steps)
}

// The registers then.
fn after(
    alloc: Global,
    design: &Design,
    record: &Record,
    middle: u64,
) -> Result<Vec<u128>, NoMemory>
    requires { middle ≤ length (rows_of record.now) }
{
    let state = state_in_two_runs::<Brand>(alloc, design, record, middle, Blank::new(1))?;
    values_of(alloc, &state)
}

#[test]
fn inputs_by_rows(rt: HostRuntime) -> Result<(), Fail> {
    let alloc = rt.alloc();
    let design = two_inputs(&rt, alloc)?;
    // Rows with the numbers of their cycles, and the registers at the end. 21 is 16 + 5 and 300 is 256 + 44: each too wide for its input.
    // An input that a row doesn't set is 0, whatever it was. A name that isn't an input does nothing.
    let table: &[(&[(&[(u64, u128)], u64)], &[u128])] = &[
        (
            &[(&[(2, 1), (3, 2)], 2), (&[(2, 21), (3, 300)], 1)],
            &[6, 55],
        ),
        (&[(&[(2, 21), (3, 300)], 1), (&[(2, 3)], 2)], &[4, 51]),
        (&[(&[(2, 21), (3, 300)], 1), (&[], 1)], &[1, 51]),
        (&[(&[(0, 5), (4, 9), (99, 3)], 2)], &[1, 7]),
        (
            &[(&[(3, 1)], 3), (&[(3, 2)], 2), (&[(3, 255)], 1)],
            &[1, 13],
        ),
    ];
    for (rows, wanted) in table {
        let record = record_of(&rt, alloc, rows)?;
        for middle in 0..=record.len() {
            let values = after(alloc, &design, &record, middle)?;
            assert_eq!(rt; values.as_slice(), *wanted);
        }
    }
    Ok(())
}

#[test]
fn widths_and_registers(rt: HostRuntime) -> Result<(), Fail> {
    let alloc = rt.alloc();
    let design = two_inputs(&rt, alloc)?;
    assert_eq!(rt; design.input_width(NameId(2)), Some(4));
    assert_eq!(rt; design.input_width(NameId(3)), Some(8));
    assert_eq!(rt; design.input_width(NameId(0)), None);
    assert_eq!(rt; design.input_width(NameId(99)), None);
    assert_eq!(rt; design.registers().len(), 2);
    let state = design.reset(alloc)?;
    assert_eq!(rt; values_of(alloc, &state)?.as_slice(), [7, 7].as_slice());
    Ok(())
}
