// Where the words of a small design stand, worked out by hand.
use crate::order_tests::{bit, copies, design_of, join, signal};
use comb_order::{Parts, linked};
use design_steps::{layout_of, places_of, program_of};
use ls_text::{NameId, NoMemory};
use std::alloc::Global;
use std::process::Abort;
use std::test::Fail;
use typed_ir::{Flat, InstanceTable, Lane, SignalId, Stmt, Target, Typed};

// to <= from; both of one bit
fn later(alloc: Global, to: u32, from: u32) -> Result<Stmt, NoMemory> {
    let lane = Lane {
        shift: 0,
        span: bit(to, 0),
    };
    Ok(Stmt::Later {
        targets: vec![in alloc; Target::Fixed(lane)]?,
        value: Typed::name(SignalId(from), 1),
    })
}

// input in; reg a, b; wire w = a, s = w & in; always @(posedge clk) a <= s; always @(posedge clk) b <= w; in is signal 0, and so on.
fn two_registers(rt: &impl Abort, alloc: Global) -> Result<Flat, NoMemory> {
    let mut signals = Vec::new(alloc);
    for number in 0..5 {
        signals.push(signal(rt, 0, number, 1))?;
    }
    let mut nodes = copies(alloc, &[(3, 1)])?;
    nodes.push(join(alloc, 4, 3, 0)?)?;
    let parts = Parts {
        instances: InstanceTable::of_top(alloc, NameId(0))?,
        signals,
        registers: vec![in alloc; SignalId(1), SignalId(2)]?,
        inputs: vec![in alloc; SignalId(0)]?,
        nodes,
        clocked: vec![in alloc; later(alloc, 1, 4)?, later(alloc, 2, 3)?]?,
    };
    design_of(rt, alloc, parts)
}

// Signals stand from 1 on, and w where a does; then come five words for next values that blocks put, five for those that nodes put, two for
// each register, and the constants.
#[test]
fn a_name_stands_where_its_register_does(rt: HostRuntime) -> Result<(), Fail> {
    let alloc = rt.alloc();
    let Ok(linked) = linked(alloc, two_registers(&rt, alloc)?) else {
        return Err("no order")?;
    };
    let layout = layout_of(alloc, &linked)?;
    assert_eq!(rt; layout.slots.as_slice(), [1, 2, 3, 2, 5].as_slice());
    assert_eq!(rt; layout.nexts.as_slice(), [11, 12, 13, 14, 15].as_slice());
    assert_eq!(rt; layout.constants.first, 20);
    Ok(())
}

// The words of a and b change places with the first two of those for registers, and their next values with the two behind them.
#[test]
fn registers_stand_side_by_side(rt: HostRuntime) -> Result<(), Fail> {
    let alloc = rt.alloc();
    let design = two_registers(&rt, alloc)?;
    let places = places_of(alloc, &design.registers, design.signals.len())?;
    let wanted = [
        0, 1, 16, 17, 4, 5, 6, 18, 19, 9, 10, 11, 12, 13, 14, 15, 2, 3, 7, 8,
    ];
    assert_eq!(rt; places.as_slice(), wanted.as_slice());
    Ok(())
}

// w takes no step, so the wires take those of s alone; each block takes one.
#[test]
fn a_name_takes_no_step(rt: HostRuntime) -> Result<(), Fail> {
    let alloc = rt.alloc();
    let Ok(linked) = linked(alloc, two_registers(&rt, alloc)?) else {
        return Err("no order")?;
    };
    let program = program_of(alloc, &linked)?;
    assert_eq!(rt; program.settling.len(), 1);
    assert_eq!(rt; program.clocking.len(), 2);
    Ok(())
}

// reg [64:0] wide; reg narrow; the first takes two words of a state, and the second one.
#[test]
fn a_register_of_65_bits_takes_two_words(rt: HostRuntime) -> Result<(), Fail> {
    let alloc = rt.alloc();
    let parts = Parts {
        instances: InstanceTable::of_top(alloc, NameId(0))?,
        signals: vec![in alloc; signal(&rt, 0, 0, 65), signal(&rt, 0, 1, 1)]?,
        registers: vec![in alloc; SignalId(0), SignalId(1)]?,
        inputs: Vec::new(alloc),
        nodes: Vec::new(alloc),
        clocked: Vec::new(alloc),
    };
    let Ok(linked) = linked(alloc, design_of(&rt, alloc, parts)?) else {
        return Err("no order")?;
    };
    let Ok(layout) = state_layout::layout_of(alloc, &linked) else {
        return Err("no layout")?;
    };
    assert_eq!(rt; layout.words(), 3);
    Ok(())
}
