// The parts of a flat design, and whether they make one.
ghost use Rattle.std.specs.Prelude.{◌≡◌, ◌<◌, ◌^◌, ◌&&◌, not, true, false, IsTrue, IfOk, IfSome, IfNone, map, length};
ghost use Rattle.typed_ir.specs.Flats.{signal_widths, are_clocked, are_below, are_within, flat_from, NodeWritesFirst};
ghost use Rattle.typed_ir.specs.Cycles.{OneWriter};
ghost use Rattle.typed_ir.specs.FlatNodes.{node_of};
ghost use Rattle.typed_ir.specs.Linkeds.{flat};
ghost use Rattle.typed_ir.specs.Nodes.{IsComplete, are_legal};
ghost use Rattle.typed_ir.specs.Statements.{stmt_of};
ghost use Rattle.typed_ir.specs.Orders.{Each, are_distinct};
ghost use Rattle.typed_ir.specs.Views.{widths};
ghost use Rattle.comb_order.specs.Parts.{has_block, none_in, blocks_in, rows_apart, are_undriven, IsDesign};

use crate::belonging::{are_distinct, members_of, none_in, write_registers};
use crate::drivers::{Driver, drivers_of, writers_of};
use crate::legal::{are_below, are_clocked, are_legal};
use crate::undriven::{are_undriven, rows_apart};
use bits::Bits;
use ls_text::NoMemory;
use std::alloc::Global;
use typed_ir::{Flat, InstanceTable, Node, Signal, SignalId, Stmt};

/// What a flat design is made of.
#[derive(Drop)]
pub struct Parts {
    pub instances: InstanceTable,
    pub signals: Vec<Signal>,
    pub registers: Vec<SignalId>,
    pub inputs: Vec<SignalId>,
    pub nodes: Vec<Node>,
    pub clocked: Vec<Stmt>,
}

// 0 for each signal.
fn zeros(alloc: Global, signals: &[Signal]) -> Result<Vec<Bits>, NoMemory>
    ensures { IfOk result (λ env. widths env.items ≡ signal_widths signals.now) }
{
    let mut env = Vec::new(alloc);
    for signal in signals {
        env.push(Bits::new(signal.width, 0))?;
    }
    Ok(env)
}

/// Whether no node is a block.
pub fn no_block(nodes: &[Node]) -> bool
    ensures { result ≡ not (has_block (map node_of nodes.now)) }
{
    for node in nodes {
        match node {
            Node::Drive { .. } => {}
            Node::Block { .. } => return false,
        }
    }
    true
}

// Whether each signal names one of so many instances.
fn are_within(signals: &[Signal], count: usize) -> bool
    ensures { result ≡ are_within signals.now count }
{
    for signal in signals {
        if signal.instance.index() >= count {
            return false;
        }
    }
    true
}

// Whether each signal names an instance of the table.
fn are_placed(parts: &Parts) -> bool
    ensures { result ≡ are_within parts.now.signals.items (length parts.now.instances.rows.items) }
{
    are_within(&parts.signals, parts.instances.rows.len())
}

// Whether the widths agree and each number names a signal.
fn are_sized(parts: &Parts, env: &[Bits]) -> bool
    ensures { result ≡ (are_legal (map node_of parts.now.nodes.items) (widths env.now)
        && (are_clocked parts.now.clocked.items (widths env.now)
        && (are_below parts.now.registers.items (length parts.now.signals.items)
        && are_below parts.now.inputs.items (length parts.now.signals.items)))) }
{
    let count = parts.signals.len();
    are_legal(&parts.nodes, env)
        && (are_clocked(&parts.clocked, env)
            && (are_below(&parts.registers, count) && are_below(&parts.inputs, count)))
}

// Whether registers and data inputs are apart, each once, and clocked blocks write registers alone.
fn are_held(alloc: Global, parts: &Parts) -> Result<bool, NoMemory>
    ensures { IfOk result (λ held. held ≡ (are_distinct parts.now.registers.items
        && (are_distinct parts.now.inputs.items
        && (none_in parts.now.inputs.items parts.now.registers.items
        && blocks_in parts.now.registers.items (map stmt_of parts.now.clocked.items))))) }
{
    let once = are_distinct(alloc, &parts.registers)?;
    let once_too = are_distinct(alloc, &parts.inputs)?;
    let registers = members_of(alloc, &parts.registers)?;
    let inputs = members_of(alloc, &parts.inputs)?;
    let only = write_registers(alloc, &parts.clocked, &registers)?;
    Ok(once && (once_too && (none_in(&inputs, &parts.registers) && only)))
}

// Whether no bit has two drivers, and registers and data inputs have none.
fn are_driven_once(parts: &Parts, table: &[Vec<Driver>]) -> bool
    ensures { result ≡ (rows_apart table.now
        && (are_undriven table.now parts.now.registers.items && are_undriven table.now parts.now.inputs.items)) }
{
    rows_apart(table)
        && (are_undriven(table, &parts.registers) && are_undriven(table, &parts.inputs))
}

// Whether no bit is written by two clocked blocks.
fn are_written_once(alloc: Global, parts: &Parts) -> Result<bool, NoMemory>
    requires { IsTrue (are_clocked parts.now.clocked.items (signal_widths parts.now.signals.items)) }
    ensures one { IfOk result (λ once. once ≡ true → OneWriter (map stmt_of parts.now.clocked.items)) }
    ensures two { IfOk result (λ once. once ≡ false → OneWriter (map stmt_of parts.now.clocked.items) → ⊥) }
{
    // No memory holds as many blocks.
    if parts.clocked.len() > u32::MAX as usize {
        return Err(NoMemory);
    }
    let table = writers_of(alloc, &parts.clocked, parts.signals.len())?;
    Ok(rows_apart(&table))
}

/// The flat design of these parts; None just where they make none. So it is where a signal names no instance of the table, widths
/// don't agree, a number names no signal, a bit has two drivers or two clocked blocks that may write it, a clocked block has a blocking
/// assignment or writes what isn't a register, a register or data input is driven or stands twice, or a signal is both of them.
pub fn checked_flat(alloc: Global, parts: Parts) -> Result<Option<Flat>, NoMemory>
    requires complete { Each IsComplete (map node_of parts.nodes.items) }
    requires first { Each NodeWritesFirst (map node_of parts.nodes.items) }
    requires few { length parts.nodes.items < 2 ^ 32 }
    ensures design { IfOk result (λ found. IfSome found (λ design.
        flat design ≡ flat_from parts.instances.rows.items parts.signals.items parts.registers.items parts.inputs.items parts.nodes.items parts.clocked.items)) }
    ensures refused { IfOk result (λ found. IfNone found (IsDesign parts → ⊥)) }
{
    if !are_placed(&parts) {
        return Ok(None);
    }
    let env = zeros(alloc, &parts.signals)?;
    if !are_sized(&parts, &env) {
        return Ok(None);
    }
    let held = are_held(alloc, &parts)?;
    if !held {
        return Ok(None);
    }
    let written = are_written_once(alloc, &parts)?;
    if !written {
        return Ok(None);
    }
    let table = drivers_of(alloc, &parts.nodes, parts.signals.len())?;
    if !are_driven_once(&parts, &table) {
        return Ok(None);
    }
    Ok(Some(Flat {
        instances: parts.instances,
        signals: parts.signals,
        registers: parts.registers,
        inputs: parts.inputs,
        nodes: parts.nodes,
        clocked: parts.clocked,
    }))
}
