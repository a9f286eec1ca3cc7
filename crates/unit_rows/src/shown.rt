// How a row shows a design.
use crate::design::Design;
use crate::node_names::{push_node, push_signal};
use ls_text::{At, Fault, NameId, Names, NoMemory, push_decimal};
use module_registry::Ensured;
use row_tables::{push_hex, word};
use typed_ir::{Flat, SignalId};

/// What a row shows of a design: nothing, its counts, its nodes and registers, its keys, or how many of its units were built.
#[derive(Clone, Copy)]
pub enum Shown {
    Nothing,
    Counts,
    Parts,
    Keys,
    Ensured,
}

/// `CODE LINE COL NAMES`, or `CODE edit NAMES`; `-` where no name is shown.
pub fn push_fault(out: &mut Vec<u8>, names: &Names, fault: &Fault) -> Result<(), NoMemory> {
    push_decimal(out, u64::from(fault.code))?;
    match fault.at {
        At::Text(place) => {
            out.push(b' ')?;
            push_decimal(out, u64::from(place.line))?;
            out.push(b' ')?;
            push_decimal(out, u64::from(place.col))?;
        }
        At::Line(_) | At::Edit => out.extend_from_slice(b" edit")?,
    }
    push_names(out, names, fault.names.ids())
}

// Names, each behind a space; `-` where there is none.
fn push_names(out: &mut Vec<u8>, names: &Names, ids: &[NameId]) -> Result<(), NoMemory> {
    if ids.is_empty() {
        out.extend_from_slice(b" -")?;
    }
    for id in ids {
        word(out, names.text(*id))?;
    }
    Ok(())
}

/// `ok`, and how many distinct keys, signals, nodes, registers and data inputs there are.
pub fn push_counts(out: &mut Vec<u8>, design: &Design) -> Result<(), NoMemory> {
    let flat = &design.linked.design;
    let counts = [
        design.keys.len(),
        flat.signals.len(),
        flat.nodes.len(),
        flat.registers.len(),
        flat.inputs.len(),
    ];
    out.extend_from_slice(b"ok")?;
    for count in &counts {
        out.push(b' ')?;
        push_decimal(out, *count as u64)?;
    }
    Ok(())
}

// A register: `PATH=WIDTH'hVALUE`, with what it has at the beginning.
fn push_register(
    out: &mut Vec<u8>,
    names: &Names,
    design: &Flat,
    signal: SignalId,
) -> Result<(), NoMemory> {
    push_signal(out, names, design, signal)?;
    if let Some(found) = design.signals.get(signal.index()) {
        out.push(b'=')?;
        push_decimal(out, u64::from(found.width))?;
        out.extend_from_slice(b"'h")?;
        push_hex(out, found.initial, 1)?;
    }
    Ok(())
}

// A space, where something stands before.
fn apart(out: &mut Vec<u8>) -> Result<(), NoMemory> {
    if !out.is_empty() {
        out.push(b' ')?;
    }
    Ok(())
}

/// The nodes in their order by their names, `;`, and the registers in their order with what they have at the beginning; `-` where there
/// is none.
pub fn push_parts(out: &mut Vec<u8>, names: &Names, design: &Flat) -> Result<(), NoMemory> {
    for node in &design.nodes {
        apart(out)?;
        push_node(out, names, design, node)?;
    }
    if design.nodes.is_empty() {
        out.push(b'-')?;
    }
    out.push(b';')?;
    for register in &design.registers {
        apart(out)?;
        push_register(out, names, design, *register)?;
    }
    if design.registers.is_empty() {
        out.extend_from_slice(b" -")?;
    }
    Ok(())
}

/// The texts of the keys, one after another.
pub fn push_keys(out: &mut Vec<u8>, design: &Design) -> Result<(), NoMemory> {
    for key in &design.keys {
        out.extend_from_slice(key.text())?;
    }
    Ok(())
}

// A count behind its name.
fn push_count(out: &mut Vec<u8>, name: &[u8], count: u64) -> Result<(), NoMemory> {
    out.extend_from_slice(name)?;
    push_decimal(out, count)
}

/// `built=N kept=N`: how many units were built, and how many others were held.
pub fn push_ensured(out: &mut Vec<u8>, ensured: Ensured) -> Result<(), NoMemory> {
    push_count(out, b"built=", u64::from(ensured.built))?;
    push_count(out, b" kept=", u64::from(ensured.kept))
}

/// ` held=N made=N`: how many units are held, and how many were ever made.
pub fn push_ever(out: &mut Vec<u8>, held: usize, made: u64) -> Result<(), NoMemory> {
    push_count(out, b" held=", held as u64)?;
    push_count(out, b" made=", made)
}
