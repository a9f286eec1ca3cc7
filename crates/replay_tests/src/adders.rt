// Designs with a register of 8 bits to which each cycle adds an input and a number.
use bits::Bits;
use comb_order::{Parts, checked_flat, linked, no_block};
use cycle_eval::Design;
use ls_text::{NameId, NoMemory};
use std::alloc::Global;
use std::process::Abort;
use typed_ir::{
    ArithmeticOperator, BinaryOperator, InstanceId, InstanceTable, Lane, Signal, SignalId, Span,
    Stmt, Target, Typed,
};

/// The numbers of the names of register and input, and the number that is added.
#[derive(Clone, Copy, Debug, PartialEq, Eq)]
pub struct Adder {
    pub register: u64,
    pub input: u64,
    pub add: u128,
}

// q <= q + d + ADD;
fn adding(alloc: Global, add: u128) -> Result<Stmt, NoMemory> {
    let sum = BinaryOperator::Arithmetic(ArithmeticOperator::Sum);
    let q = Typed::name(SignalId(0), 8);
    let d = Typed::name(SignalId(1), 8);
    let with_input = Typed::binary(alloc, sum, q, d)?;
    let number = Typed::constant(Bits::new(8, add));
    let value = Typed::binary(alloc, sum, with_input, number)?;
    let mut targets = Vec::new(alloc);
    targets.push(Target::Fixed(Lane {
        shift: 0,
        span: Span {
            signal: SignalId(0),
            low: 0,
            width: 8,
        },
    }))?;
    Ok(Stmt::Later { targets, value })
}

// A signal of 8 bits, which is 0 at the beginning.
fn signal(name: u64) -> Signal {
    Signal {
        in_module: NameId(0),
        instance: InstanceId(0),
        name: NameId(name),
        lsb: 0,
        signed: false,
        width: 8,
        initial: Bits::new(8, 0).value(),
    }
}

// input [7:0] d; reg [7:0] q = 0; always @(posedge clk) q <= q + d + ADD;
fn parts(alloc: Global, adder: Adder) -> Result<Parts, NoMemory> {
    Ok(Parts {
        instances: InstanceTable::of_top(alloc, NameId(0))?,
        signals: vec![in alloc; signal(adder.register), signal(adder.input)]?,
        registers: vec![in alloc; SignalId(0)]?,
        inputs: vec![in alloc; SignalId(1)]?,
        nodes: Vec::new(alloc),
        clocked: vec![in alloc; adding(alloc, adder.add)?]?,
    })
}

/// The design of an adder.
#[tactic(auto, using(comb_order::proofs::Flatten::complete_of, comb_order::proofs::Flatten::first_of))]
pub fn design(rt: &impl Abort, alloc: Global, adder: Adder) -> Result<Design, NoMemory> {
    let parts = parts(alloc, adder)?;
    assert!(rt; no_block(&parts.nodes));
    assert!(rt; parts.nodes.len() < 1_000_000);
    let flat = checked_flat(alloc, parts)?.expect(rt, "a design");
    match linked(alloc, flat) {
        Ok(linked) => Ok(Design::make(alloc, linked).expect(rt, "few words")),
        Err(_) => Err(NoMemory),
    }
}
