// What designs are made of, runs of them, and the values of their registers.
ghost use Rattle.std.specs.Prelude.{◌≡◌, ◌<◌, ◌+◌, ◌*◌, map, length, IfOk};
ghost use Rattle.typed_ir.specs.FlatNodes.{node_of};
ghost use Rattle.typed_ir.specs.Flats.{NodeWritesFirst};
ghost use Rattle.typed_ir.specs.Nodes.{IsComplete};
ghost use Rattle.typed_ir.specs.Orders.{Each};
ghost use Rattle.cycle_eval.specs.Designs.{work_of};
ghost use Rattle.machine.specs.Rows.{Covers};

use bits::Bits;
use comb_order::{Parts, checked_flat, linked, no_block};
use cycle_eval::Design;
use ls_text::{NameId, NoMemory};
use machine::Machine;
use machine::row_run::RowRun;
use machine::row_runs::RowRuns;
use machine::steps::Steps;
use state_layout::SlotState;
use std::alloc::Global;
use std::process::Abort;
use std::sync::Arc;
use std::sync::ledger::Ledger;
use stimulus::Row;
use typed_ir::{
    ArithmeticOperator, BinaryOperator, InstanceId, InstanceTable, Lane, Node, RegisterId, Signal,
    SignalId, Span, Stmt, Target, TargetForm, Typed,
};

// The table of one instance.
pub fn top(alloc: Global) -> Result<InstanceTable, NoMemory> {
    InstanceTable::of_top(alloc, NameId(0))
}

// Signals of these widths and values at the beginning, all of one instance.
pub fn signals(
    rt: &impl Abort,
    alloc: Global,
    list: &[(u8, u128)],
) -> Result<Vec<Signal>, NoMemory> {
    let mut signals = Vec::new(alloc);
    for (width, initial) in list {
        assert!(rt; 1 <= *width && *width <= 128);
        signals.push(Signal {
            in_module: NameId(0),
            instance: InstanceId(0),
            name: NameId(signals.len() as u64),
            lsb: 0,
            signed: false,
            width: *width,
            initial: Bits::new(*width, *initial).value(),
        })?;
    }
    Ok(signals)
}

// A design without a combinational block.
#[tactic(auto, using(comb_order::proofs::Flatten::complete_of, comb_order::proofs::Flatten::first_of))]
pub fn design_of(rt: &impl Abort, alloc: Global, parts: Parts) -> Result<Design, NoMemory>
    ensures { IfOk result (λ design. work_of design ≡ length parts.nodes.items + length parts.clocked.items) }
{
    assert!(rt; no_block(&parts.nodes));
    design_with(rt, alloc, parts)
}

// A design whose blocks write each of their bits on every path, and before they read it.
#[tactic(auto, using(crate::proofs::Works::work_is))]
pub fn design_with(rt: &impl Abort, alloc: Global, parts: Parts) -> Result<Design, NoMemory>
    requires complete { Each IsComplete (map node_of parts.nodes.items) }
    requires first { Each NodeWritesFirst (map node_of parts.nodes.items) }
    ensures { IfOk result (λ design. work_of design ≡ length parts.nodes.items + length parts.clocked.items) }
{
    assert!(rt; parts.nodes.len() < 1_000_000);
    let design = checked_flat(alloc, parts)?.expect(rt, "a design");
    match linked(alloc, design) {
        Ok(linked) => Ok(Design::make(alloc, linked).expect(rt, "few words")),
        Err(_) => Err(NoMemory),
    }
}

// The numbers of a state.
pub fn values_of(alloc: Global, state: &SlotState) -> Result<Vec<u128>, NoMemory> {
    let mut values = Vec::new(alloc);
    for i in 0..state.len() {
        values.push(state.read(RegisterId(i)).value())?;
    }
    Ok(values)
}

// The rows of the cycles 0 to N - 1, which set nothing.
pub fn rows(alloc: Global, cycles: u64) -> Result<RowRuns<Row>, NoMemory>
    ensures { IfOk result (λ r. Covers r 0 cycles) }
{
    let mut runs = Vec::new(alloc);
    runs.push(RowRun {
        start: 0,
        end: cycles,
        row: Arc::new(alloc, Row::new(alloc))?,
    })?;
    RowRuns::new(0, cycles, runs)
}

// The state after so many cycles from the beginning.
pub fn state_after<L: Ledger>(
    alloc: Global,
    design: &Design,
    cycles: u64,
    steps: &mut Steps<L>,
) -> Result<SlotState, NoMemory>
    ensures { IfOk result (λ _. steps.new ≡ steps.old + cycles * work_of design.now) }
{
    let rows = rows(alloc, cycles)?;
    let start = design.reset(alloc)?;
    design.advance(alloc, &rows, &start, 0, cycles, steps)
}

fn ids(alloc: Global, numbers: &[u32]) -> Result<Vec<SignalId>, NoMemory> {
    let mut ids = Vec::new(alloc);
    for number in numbers {
        ids.push(SignalId(*number))?;
    }
    Ok(ids)
}

// A design of one instance, with signals of these widths and values at the beginning, of which these are registers and these inputs.
pub fn made(
    rt: &impl Abort,
    alloc: Global,
    list: &[(u8, u128)],
    registers: &[u32],
    inputs: &[u32],
    nodes: Vec<Node>,
    clocked: Vec<Stmt>,
) -> Result<Design, NoMemory>
    ensures { IfOk result (λ design. work_of design ≡ length nodes.items + length clocked.items) }
{
    let parts = Parts {
        instances: top(alloc)?,
        signals: signals(rt, alloc, list)?,
        registers: ids(alloc, registers)?,
        inputs: ids(alloc, inputs)?,
        nodes,
        clocked,
    };
    design_of(rt, alloc, parts)
}

pub fn whole(signal: u32, width: u8) -> Lane
    ensures { result ≡ record { shift = 0; span = record { signal = signal; low = 0; width = width } } }
{
    Lane {
        shift: 0,
        span: Span {
            signal: SignalId(signal),
            low: 0,
            width,
        },
    }
}

// SIGNAL <= E;
pub fn later(alloc: Global, signal: u32, width: u8, e: Typed) -> Result<Stmt, NoMemory> {
    let mut parts = Vec::new(alloc);
    parts.push(Target::Fixed(whole(signal, width)))?;
    Ok(Stmt::Later {
        targets: parts,
        value: e,
    })
}

// assign SIGNAL = E;
pub fn assign(alloc: Global, signal: u32, width: u8, e: Typed) -> Result<Node, NoMemory> {
    let mut lanes = Vec::new(alloc);
    lanes.push(whole(signal, width))?;
    Ok(Node::Drive {
        form: TargetForm::Name,
        lanes,
        value: e,
    })
}

fn number(n: u8, width: u8) -> Typed
    requires some { 0 < width }
    requires few { width < 9 }
    ensures { result.width ≡ width }
{
    Typed::constant(Bits::new(width, u128::from(n)))
}

pub fn plus(alloc: Global, signal: u32, width: u8, n: u8) -> Result<Typed, NoMemory>
    requires some { 0 < width }
    requires few { width < 9 }
{
    let sum = BinaryOperator::Arithmetic(ArithmeticOperator::Sum);
    Typed::binary(
        alloc,
        sum,
        Typed::name(SignalId(signal), width),
        number(n, width),
    )
}
