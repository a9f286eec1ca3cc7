// Steps of modules as text: `(KIND NAMES)`, a block as `{NUMBER PARENT LABEL[VALUE] .. }`, and a fault as `CODE LINE COL NAMES`.
use gen_unroll::{Block, ParameterSort, Step, Unrolled};
use ls_text::{Fault, NoMemory, push_decimal};
use row_tables::{fault_text, name, word};
use typed_ir::Const;
use verilog_ast::{HeaderPort, Identifier, Instance, PlainItem, RegVariable, Variable};

fn names(out: &mut Vec<u8>, texts: &[Vec<u8>], all: &[Identifier]) -> Result<(), NoMemory> {
    for one in all {
        name(out, texts, one.name)?;
    }
    Ok(())
}

fn variables(out: &mut Vec<u8>, texts: &[Vec<u8>], all: &[Variable]) -> Result<(), NoMemory> {
    for one in all {
        name(out, texts, one.name.name)?;
    }
    Ok(())
}

fn regs(out: &mut Vec<u8>, texts: &[Vec<u8>], all: &[RegVariable]) -> Result<(), NoMemory> {
    for one in all {
        name(out, texts, one.name.name)?;
    }
    Ok(())
}

fn instances(out: &mut Vec<u8>, texts: &[Vec<u8>], all: &[Instance]) -> Result<(), NoMemory> {
    for one in all {
        name(out, texts, one.name.name)?;
    }
    Ok(())
}

// A number in decimal; 2^64 - 1 stands for all from there on.
fn number(out: &mut Vec<u8>, n: u128) -> Result<(), NoMemory> {
    push_decimal(out, n.min(u128::from(u64::MAX)) as u64)
}

// ` WIDTH signed VALUE` or ` WIDTH unsigned VALUE`, the value as it reads without a sign.
fn value(out: &mut Vec<u8>, x: Const) -> Result<(), NoMemory> {
    out.push(b' ')?;
    push_decimal(out, u64::from(x.bits.width()))?;
    out.extend_from_slice(if x.signed {
        b" signed ".as_slice()
    } else {
        b" unsigned ".as_slice()
    })?;
    number(out, x.bits.value())
}

// What a genvar holds, below 0 with a sign.
fn genvar_value(out: &mut Vec<u8>, x: Const) -> Result<(), NoMemory> {
    let n = x.bits.as_signed();
    if n < 0 {
        out.push(b'-')?;
    }
    number(out, n.unsigned_abs())
}

fn block(out: &mut Vec<u8>, texts: &[Vec<u8>], b: &Block) -> Result<(), NoMemory> {
    out.push(b'{')?;
    push_decimal(out, b.number.index() as u64)?;
    out.push(b' ')?;
    match b.parent {
        Some(parent) => push_decimal(out, parent.index() as u64)?,
        None => out.push(b'-')?,
    }
    name(out, texts, b.label.name)?;
    if let Some(turn) = b.turn {
        out.push(b'[')?;
        genvar_value(out, turn.value)?;
        out.push(b']')?;
    }
    Ok(())
}

fn item(out: &mut Vec<u8>, texts: &[Vec<u8>], x: &PlainItem) -> Result<(), NoMemory> {
    match x {
        PlainItem::Wire(_, _, nets) => {
            out.extend_from_slice(b"(wire")?;
            variables(out, texts, nets.as_slice())?;
        }
        PlainItem::Reg(_, _, all) => {
            out.extend_from_slice(b"(reg")?;
            regs(out, texts, all.as_slice())?;
        }
        PlainItem::LocalParameter(_, _, _) => out.extend_from_slice(b"(localparam")?,
        PlainItem::Genvar(_, all) => {
            out.extend_from_slice(b"(genvar")?;
            names(out, texts, all.as_slice())?;
        }
        PlainItem::Assign(_, _) => out.extend_from_slice(b"(assign")?,
        PlainItem::Combinational(_, _) => out.extend_from_slice(b"(always")?,
        PlainItem::Clocked(_, clock, _) => {
            out.extend_from_slice(b"(always")?;
            name(out, texts, clock.name)?;
        }
        PlainItem::Instances(of, _, all) => {
            out.extend_from_slice(b"(instances")?;
            name(out, texts, of.name)?;
            instances(out, texts, all.as_slice())?;
        }
    }
    out.push(b')')?;
    Ok(())
}

fn port(out: &mut Vec<u8>, texts: &[Vec<u8>], x: &HeaderPort) -> Result<(), NoMemory> {
    out.extend_from_slice(b"(port")?;
    let id = match x {
        HeaderPort::Input(_, _, _, id) => *id,
        HeaderPort::Output(_, _, _, variable) | HeaderPort::Next(variable) => variable.name,
    };
    name(out, texts, id.name)?;
    out.push(b')')?;
    Ok(())
}

fn parameter(
    out: &mut Vec<u8>,
    texts: &[Vec<u8>],
    sort: ParameterSort,
    id: Identifier,
    x: Const,
) -> Result<(), NoMemory> {
    out.extend_from_slice(match sort {
        ParameterSort::Overridable => b"(parameter".as_slice(),
        ParameterSort::Local => b"(localparam".as_slice(),
    })?;
    name(out, texts, id.name)?;
    value(out, x)?;
    out.push(b')')?;
    Ok(())
}

fn step(out: &mut Vec<u8>, texts: &[Vec<u8>], x: &Step<'_>) -> Result<(), NoMemory> {
    match x {
        Step::Listed(id) => {
            out.extend_from_slice(b"(listed")?;
            name(out, texts, id.name)?;
            out.push(b')')?;
        }
        Step::Port(x) => port(out, texts, x)?,
        Step::Parameter(sort, id, x) => parameter(out, texts, *sort, *id, *x)?,
        Step::Inputs(_, _, _, all) => {
            out.extend_from_slice(b"(input")?;
            names(out, texts, all)?;
            out.push(b')')?;
        }
        Step::Outputs(_, _, _, all) => {
            out.extend_from_slice(b"(output")?;
            variables(out, texts, all)?;
            out.push(b')')?;
        }
        Step::Item(x) => item(out, texts, x)?,
        Step::Label(id) => {
            out.extend_from_slice(b"(label")?;
            name(out, texts, id.name)?;
            out.push(b')')?;
        }
        Step::Open(b, _) => block(out, texts, b)?,
        Step::Close => out.push(b'}')?,
    }
    Ok(())
}

// ` CODE LINE COL`, and the names, or `-`.
fn push_fault(out: &mut Vec<u8>, texts: &[Vec<u8>], fault: &Fault) -> Result<(), NoMemory> {
    fault_text(out, texts, fault)?;
    if fault.names.ids().is_empty() {
        word(out, b"-")?;
    }
    Ok(())
}

// A space where something stands before.
fn apart(out: &mut Vec<u8>) -> Result<(), NoMemory> {
    if !out.is_empty() {
        out.push(b' ')?;
    }
    Ok(())
}

/// The steps, and behind them the fault.
pub fn steps(out: &mut Vec<u8>, texts: &[Vec<u8>], u: &Unrolled<'_>) -> Result<(), NoMemory> {
    for x in &u.steps {
        apart(out)?;
        step(out, texts, x)?;
    }
    if let Some(fault) = &u.fault {
        push_fault(out, texts, fault)?;
    }
    Ok(())
}

/// How many steps and blocks there are, and behind them the fault.
pub fn counts(out: &mut Vec<u8>, texts: &[Vec<u8>], u: &Unrolled<'_>) -> Result<(), NoMemory> {
    push_decimal(out, u.steps.len() as u64)?;
    out.push(b' ')?;
    push_decimal(out, u.blocks.len() as u64)?;
    if let Some(fault) = &u.fault {
        push_fault(out, texts, fault)?;
    }
    Ok(())
}
