// A counter by rows, and its steps.
ghost use Rattle.std.specs.Prelude.{◌≡◌, ◌<◌, ◌+◌, ◌*◌, IfOk};
ghost use Rattle.cycle_eval.specs.Designs.{work_of};

use crate::designs::state_after;
use bits::Bits;
use cycle_eval::Design;
use ls_text::{NameId, NoMemory, Refusal};
use machine::Machine;
use machine::steps::Steps;
use reg_ops::RegOps;
use state_layout::SlotState;
use std::alloc::Global;
use std::marker::Brand;
use std::sync::ledger::{Blank, Ledger};
use std::test::Fail;
use stimulus::Row;
use typed_ir::{
    ArithmeticOperator, BinaryOperator, Flat, InstanceId, InstanceTable, Lane, Linked, RegisterId,
    Signal, SignalId, Span, Stmt, Target, Typed,
};

// reg [3:0] q = 14; always @(posedge clk) q <= q + 4'd3;
fn counter(alloc: Global) -> Result<Linked, NoMemory> {
    let mut signals = Vec::new(alloc);
    signals.push(Signal {
        in_module: NameId(0),
        instance: InstanceId(0),
        name: NameId(1),
        lsb: 0,
        signed: false,
        width: 4,
        initial: 14,
    })?;
    let mut registers = Vec::new(alloc);
    registers.push(SignalId(0))?;
    let sum = BinaryOperator::Arithmetic(ArithmeticOperator::Sum);
    let next = Typed::binary(
        alloc,
        sum,
        Typed::name(SignalId(0), 4),
        Typed::constant(Bits::new(4, 3)),
    )?;
    let span = Span {
        signal: SignalId(0),
        low: 0,
        width: 4,
    };
    let mut parts = Vec::new(alloc);
    parts.push(Target::Fixed(Lane { shift: 0, span }))?;
    let mut clocked = Vec::new(alloc);
    clocked.push(Stmt::Later {
        targets: parts,
        value: next,
    })?;
    let design = Flat {
        instances: InstanceTable::of_top(alloc, NameId(0))?,
        signals,
        registers,
        inputs: Vec::new(alloc),
        nodes: Vec::new(alloc),
        clocked,
    };
    Ok(Linked {
        design,
        order: Vec::new(alloc),
    })
}

fn first(state: &SlotState) -> u128 {
    if state.is_empty() {
        return 99;
    }
    state.read(RegisterId(0)).value
}

// After three rows; the beginning carried into the same design; and whether two resets are the same.
fn by_rows<L: Ledger>(
    alloc: Global,
    design: &Design,
    steps: &mut Steps<L>,
) -> Result<(u128, u128, bool), NoMemory>
    ensures { IfOk result (λ _. steps.new ≡ steps.old + 3 * work_of design.now) }
{
    let end = state_after(alloc, design, 3, steps)?;
    let start = design.reset(alloc)?;
    let again = design.reset(alloc)?;
    let none = RegOps::new(Vec::new(alloc));
    let carried = design.carry(alloc, design, &none, &start)?;
    let same = design.same(&again, &design.share(alloc, &start)?);
    Ok((first(&end), first(&carried), same))
}

fn figures<L: Ledger>(alloc: Global, blank: Blank) -> Result<(u128, u128, bool), Refusal>
    requires name { blank.name ≡ L.name }
    requires parts { blank.parts ≡ L.parts }
    requires some { 0 < blank.parts }
{
    let mut steps = Steps::<L>::start(blank);
    let design = Design::make(alloc, counter(alloc)?)?;
    Ok(by_rows(alloc, &design, &mut steps)?)
}

#[test]
fn counts_by_three(rt: HostRuntime) -> Result<(), Fail> {
    let (end, carried, same) = figures::<Brand>(rt.alloc(), Blank::new(1)).expect(&rt, "a design");
    assert_eq!(rt; (end, carried, same), (7, 14, true));
    Ok(())
}

// Rows with the same values are the same, so that a record keeps one run of them; a row in which a name is set to 0 is another one.
#[test]
fn equal_rows_are_one_run(rt: HostRuntime) -> Result<(), Fail> {
    let alloc = rt.alloc();
    let none = Row::new(alloc);
    let zero = none.with(alloc, NameId(3), 0)?;
    let again = none.with(alloc, NameId(3), 7)?.with(alloc, NameId(3), 0)?;
    assert!(rt; <Design as Machine>::same_row(&zero, &again));
    assert!(rt; !<Design as Machine>::same_row(&none, &zero));
    Ok(())
}
