// The text of a job, by which what is built of it is found again.
ghost use Rattle.std.specs.Prelude.{◌≡◌, ◌++◌, ◌==◌, ◌≤◌, length, IfOk, OnOk};
ghost use Rattle.std.specs.List.{flat_map, prefix_len};
ghost use Rattle.verilog_spelling.specs.Spellings.{hex_text};
ghost use Rattle.module_registry.specs.KeyTexts.{sign_text, shape_text, clock_text, parameter_line, parameter_lines, clock_line, port_line, child_lines};
ghost use Rattle.module_registry.specs.Jobs.{job_text};

use crate::build_job::BuildJob;
use crate::constant_names::constant_names;
use hex::encode_to_slice;
use ls_text::{NameId, Names, NoMemory, push_decimal};
use std::alloc::Global;
use typed_ir::{ChildShape, Const, PortShape};
use verilog_ast::Identifier;

// How many zeros lead the digits.
fn zeros(digits: &[u8]) -> usize
    ensures value { result ≡ prefix_len (λ c. c == 48) digits.now }
    ensures within { result ≤ length digits.now }
{
    digits.iter().take_while(|c| **c == b'0').count()
}

// A value in lower-case hexadecimal, without leading zeros.
fn push_hex(text: &mut Vec<u8>, value: u128) -> Result<(), NoMemory>
    ensures { OnOk result (text.new.items ≡ text.old.items ++ hex_text value) }
{
    let mut digits = [0u8; 32];
    let _ = encode_to_slice(value.to_be_bytes().as_slice(), &mut digits);
    let skipped = zeros(&digits).min(31);
    let (_, shown) = digits.as_slice().split_at(skipped);
    text.extend_from_slice(shown)?;
    Ok(())
}

// ` u`, or ` s` for what is signed
fn push_sign(text: &mut Vec<u8>, signed: bool) -> Result<(), NoMemory>
    ensures { OnOk result (text.new.items ≡ text.old.items ++ sign_text signed) }
{
    text.extend_from_slice(if signed { b" s" } else { b" u" })?;
    Ok(())
}

// ` WIDTH u`
fn push_shape(text: &mut Vec<u8>, width: u8, signed: bool) -> Result<(), NoMemory>
    ensures { OnOk result (text.new.items ≡ text.old.items ++ shape_text width signed) }
{
    text.push(b' ')?;
    push_decimal(text, u64::from(width))?;
    push_sign(text, signed)
}

// A name, or `-` where there is none.
fn push_clock(text: &mut Vec<u8>, names: &Names, clock: Option<NameId>) -> Result<(), NoMemory>
    ensures { OnOk result (text.new.items ≡ text.old.items ++ clock_text names.now clock) }
{
    text.extend_from_slice(match clock {
        None => b"-",
        Some(name) => names.text(name),
    })?;
    Ok(())
}

// `param NAME WIDTH u HEX`
fn push_parameter(
    text: &mut Vec<u8>,
    names: &Names,
    name: Identifier,
    value: Const,
) -> Result<(), NoMemory>
    ensures { OnOk result (text.new.items ≡ text.old.items ++ parameter_line names.now name value) }
{
    text.extend_from_slice(b"param ")?;
    text.extend_from_slice(names.text(name.name))?;
    push_shape(text, value.bits.width, value.signed)?;
    text.push(b' ')?;
    push_hex(text, value.bits.value)?;
    text.push(b'\n')?;
    Ok(())
}

// A line for each parameter, as many as there are names and values.
fn push_parameters(
    text: &mut Vec<u8>,
    names: &Names,
    ids: &[Identifier],
    values: &[Const],
) -> Result<(), NoMemory>
    ensures { OnOk result (text.new.items ≡ text.old.items ++ parameter_lines names.now ids.now values.now) }
{
    let mut rest = values;
    for id in ids {
        let Some((value, behind)) = rest.split_first() else {
            return Ok(());
        };
        push_parameter(text, names, *id, *value)?;
        rest = behind;
    }
    Ok(())
}

// `clock NAME`, or `clock -`
fn push_clock_line(text: &mut Vec<u8>, names: &Names, clock: Option<NameId>) -> Result<(), NoMemory>
    ensures { OnOk result (text.new.items ≡ text.old.items ++ clock_line names.now clock) }
{
    text.extend_from_slice(b"clock ")?;
    push_clock(text, names, clock)?;
    text.push(b'\n')?;
    Ok(())
}

// `in NAME WIDTH u`, or `out NAME WIDTH u`
fn push_port(text: &mut Vec<u8>, names: &Names, port: PortShape) -> Result<(), NoMemory>
    ensures { OnOk result (text.new.items ≡ text.old.items ++ port_line names.now port) }
{
    text.extend_from_slice(if port.input { b"in " } else { b"out " })?;
    text.extend_from_slice(names.text(port.name))?;
    push_shape(text, port.width, port.signed)?;
    text.push(b'\n')?;
    Ok(())
}

fn push_ports(text: &mut Vec<u8>, names: &Names, ports: &[PortShape]) -> Result<(), NoMemory>
    ensures { OnOk result (text.new.items ≡ text.old.items ++ flat_map (port_line names.now) ports.now) }
{
    for port in ports {
        push_port(text, names, *port)?;
    }
    Ok(())
}

// `child INSTANCE CLOCK`, and then its ports
fn push_child(text: &mut Vec<u8>, names: &Names, child: &ChildShape) -> Result<(), NoMemory>
    ensures { OnOk result (text.new.items ≡ text.old.items ++ child_lines names.now child.now) }
{
    text.extend_from_slice(b"child ")?;
    text.extend_from_slice(names.text(child.instance))?;
    text.push(b' ')?;
    push_clock(text, names, child.clock)?;
    text.push(b'\n')?;
    push_ports(text, names, child.ports.as_slice())
}

fn push_children(text: &mut Vec<u8>, names: &Names, children: &[ChildShape]) -> Result<(), NoMemory>
    ensures { OnOk result (text.new.items ≡ text.old.items ++ flat_map (child_lines names.now) children.now) }
{
    for child in children {
        push_child(text, names, child)?;
    }
    Ok(())
}

/// The text of a job, by the names of this table: the module's spelling, and then its parameters with their values, its clock, and the
/// instances within with their clocks and ports, a line each.
pub fn key_text(alloc: Global, names: &Names, job: &BuildJob) -> Result<Vec<u8>, NoMemory>
    ensures { IfOk result (λ text. text.items ≡ job_text names.now job.now) }
{
    let module = &job.module;
    let ids = constant_names(alloc, &module.body)?;
    let mut text = Vec::from_slice(alloc, module.spelling.bytes())?;
    text.push(b'\n')?;
    push_parameters(&mut text, names, &ids, job.parameters.as_slice())?;
    push_clock_line(&mut text, names, job.clock)?;
    push_children(&mut text, names, job.children.as_slice())?;
    Ok(text)
}
