// What the rules of sizes make of expressions, as texts.
ghost use Rattle.std.specs.Prelude.{◌≤◌};

use crate::prepared::Prepared;
use ls_text::{NoMemory, behind, front, push_decimal};
use row_operands::{push_refusal, push_value};
use std::alloc::Global;
use typed_ir::{Const, Signedness, fits, value};
use width_rules::{constant, size_expr};

// How many bytes stand before the first space.
fn len_before_space(text: &[u8]) -> usize {
    text.iter().take_while(|b| **b != b' ').count()
}

// The value in a context of so many bits, where it is unsigned or by its own sign; or the first fault.
fn push_sized(
    alloc: Global,
    out: &mut Vec<u8>,
    p: &mut Prepared,
    length: u8,
    by: Signedness,
) -> Result<(), NoMemory>
    requires least { 1 ≤ length }
    requires most { length ≤ 128 }
{
    let unsigned = matches!(by, Signedness::Unsigned);
    match size_expr(alloc, &p.scope, &p.expression, Some(length), unsigned) {
        Ok(typed) => {
            if fits(&typed, &p.env) {
                push_value(out, value(&typed, &p.env).resize(length, false))?;
            }
            Ok(())
        }
        Err(refusal) => push_refusal(alloc, out, &mut p.names, refusal),
    }
}

// The same of a text: a number of bits and an expression.
fn value_of(alloc: Global, text: &[u8], by: Signedness) -> Result<Vec<u8>, NoMemory> {
    let n = len_before_space(text);
    let length = bits_of(front(text, n));
    let mut out = Vec::new(alloc);
    if let Some(mut p) = Prepared::of(alloc, behind(text, n.saturating_add(1)))? {
        push_sized(alloc, &mut out, &mut p, length, by)?;
    }
    Ok(out)
}

/// The value of an expression that is assigned to so many bits: a row is the number of bits and the expression.
pub fn value_at(alloc: Global, text: &[u8]) -> Result<Vec<u8>, NoMemory> {
    value_of(alloc, text, Signedness::Signed)
}

/// The same of an expression that its context makes unsigned.
pub fn unsigned_at(alloc: Global, text: &[u8]) -> Result<Vec<u8>, NoMemory> {
    value_of(alloc, text, Signedness::Unsigned)
}

// A number in decimal digits; 255 stands for all from 255 on.
fn decimal(text: &[u8]) -> u8 {
    let mut n = 0u8;
    for byte in text {
        n = n.saturating_mul(10).saturating_add(*byte & 15);
    }
    n
}

// A number of 1 to 128 bits.
fn bits_of(text: &[u8]) -> u8
    ensures least { 1 ≤ result }
    ensures most { result ≤ 128 }
{
    decimal(text).clamp(1, 128)
}

/// The first fault of an expression in a context of so many bits; or `ok`. A row is the number of bits and the expression.
pub fn within(alloc: Global, text: &[u8]) -> Result<Vec<u8>, NoMemory> {
    let n = len_before_space(text);
    let context = decimal(front(text, n));
    fault_of(alloc, behind(text, n.saturating_add(1)), Some(context))
}

/// The first fault of an expression, `CODE LINE COL NAMES`; or `ok`.
pub fn sizing(alloc: Global, text: &[u8]) -> Result<Vec<u8>, NoMemory> {
    fault_of(alloc, text, None)
}

// The first fault in a context of so many bits, or none; or `ok`.
fn push_fault(
    alloc: Global,
    out: &mut Vec<u8>,
    p: &mut Prepared,
    context: Option<u8>,
) -> Result<(), NoMemory> {
    match size_expr(alloc, &p.scope, &p.expression, context, false) {
        Ok(_) => Ok(out.extend_from_slice(b"ok")?),
        Err(refusal) => push_refusal(alloc, out, &mut p.names, refusal),
    }
}

// The same of a text.
fn fault_of(alloc: Global, text: &[u8], context: Option<u8>) -> Result<Vec<u8>, NoMemory> {
    let mut out = Vec::new(alloc);
    if let Some(mut p) = Prepared::of(alloc, text)? {
        push_fault(alloc, &mut out, &mut p, context)?;
    }
    Ok(out)
}

// The length, the sign and the value.
fn push_const(out: &mut Vec<u8>, found: Const) -> Result<(), NoMemory> {
    push_decimal(out, u64::from(found.bits.width()))?;
    out.extend_from_slice(if found.signed {
        b" signed "
    } else {
        b" unsigned "
    })?;
    push_value(out, found.bits)
}

// The constant that an expression is, or its first fault.
fn push_constant(alloc: Global, out: &mut Vec<u8>, p: &mut Prepared) -> Result<(), NoMemory> {
    match constant(alloc, &p.scope, &p.expression) {
        Ok(found) => push_const(out, found),
        Err(refusal) => push_refusal(alloc, out, &mut p.names, refusal),
    }
}

/// The length, the sign and the value of a constant expression; or its first fault.
pub fn constant_of(alloc: Global, text: &[u8]) -> Result<Vec<u8>, NoMemory> {
    let mut out = Vec::new(alloc);
    if let Some(mut p) = Prepared::of(alloc, text)? {
        push_constant(alloc, &mut out, &mut p)?;
    }
    Ok(out)
}
