// How a row shows a design.
use ls_text::{At, Fault, Names, NoMemory, push_decimal};
use row_tables::{fault_text, texts_of};
use std::alloc::Global;
use typed_ir::{Const, Instance, InstanceTree, PortShape};

/// What a reader shows of a design.
#[derive(Clone, Copy, Debug, PartialEq, Eq)]
pub enum Shown {
    First,
    Count,
    Tree,
}

/// `CODE LINE COL NAMES`, or `CODE edit NAMES`; `-` where no name is shown.
pub fn push_fault(
    alloc: Global,
    out: &mut Vec<u8>,
    names: &mut Names,
    fault: &Fault,
) -> Result<(), NoMemory> {
    if fault.at == At::Edit {
        push_decimal(out, u64::from(fault.code))?;
        out.extend_from_slice(b" edit")?;
    } else {
        let texts = texts_of(alloc, names)?;
        let mut shown = Vec::new(alloc);
        fault_text(&mut shown, &texts, fault)?;
        out.extend_from_slice(shown.strip_prefix(b" ".as_slice()).unwrap_or(&shown))?;
    }
    if fault.names.ids().is_empty() {
        out.extend_from_slice(b" -")?;
    }
    Ok(())
}

// A parameter: ` WIDTH'VALUE`, or ` WIDTH'sVALUE`, of which the value is that of its lowest 64 bits.
fn push_parameter(out: &mut Vec<u8>, value: Const) -> Result<(), NoMemory> {
    out.push(b' ')?;
    push_decimal(out, u64::from(value.bits.width()))?;
    out.push(b'\'')?;
    if value.signed {
        out.push(b's')?;
    }
    push_decimal(out, (value.bits.value() & u128::from(u64::MAX)) as u64)
}

// A port: ` <NAME:WIDTH` of an input, ` >NAME:WIDTH` of an output; an `s` behind it where it is signed.
fn push_port(out: &mut Vec<u8>, names: &Names, port: &PortShape) -> Result<(), NoMemory> {
    out.extend_from_slice(if port.input { b" <" } else { b" >" })?;
    out.extend_from_slice(names.text(port.name))?;
    out.push(b':')?;
    push_decimal(out, u64::from(port.width))?;
    if port.signed {
        out.push(b's')?;
    }
    Ok(())
}

// An instance: the number of the one that it stands in, its name and its module, `@CLOCK`, its parameters and its ports.
fn push_instance(out: &mut Vec<u8>, names: &Names, one: &Instance) -> Result<(), NoMemory> {
    match one.place.parent {
        None => out.push(b'-')?,
        Some(parent) => push_decimal(out, u64::from(parent.0))?,
    }
    out.push(b' ')?;
    out.extend_from_slice(names.text(one.place.name))?;
    out.push(b' ')?;
    out.extend_from_slice(names.text(one.of_module))?;
    if let Some(clock) = one.clock {
        out.extend_from_slice(b" @")?;
        out.extend_from_slice(names.text(clock))?;
    }
    for value in one.parameters.as_slice() {
        push_parameter(out, *value)?;
    }
    for port in one.ports.as_slice() {
        push_port(out, names, port)?;
    }
    Ok(())
}

/// The instances one after another, with `; ` between them.
pub fn push_tree(out: &mut Vec<u8>, names: &Names, tree: &InstanceTree) -> Result<(), NoMemory> {
    for one in tree.instances.as_slice() {
        if !out.is_empty() {
            out.extend_from_slice(b"; ")?;
        }
        push_instance(out, names, one)?;
    }
    Ok(())
}
