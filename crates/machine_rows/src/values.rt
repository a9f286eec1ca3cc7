// Rows of one expression, over two signals.
use crate::expressions::takes_expression;
use crate::word::word_of;
use bits::Bits;
use ls_text::{NoMemory, push_decimal};
use row_tables::push_hex;
use std::alloc::Global;
use typed_ir::{Env, Typed, fits, value};

// Signal 0 has the eight bits 1010_0101, and signal 1 the highest and the lowest of 128 bits.
fn two_signals(alloc: Global) -> Result<Env, NoMemory> {
    let mut values = Vec::new(alloc);
    values.push(Bits::new(8, 0xa5))?;
    values.push(Bits::new(128, (1 << 127) | 1))?;
    Ok(Env { values })
}

// The width and the value of an expression, or that a signal isn't there.
fn push_expression(out: &mut Vec<u8>, e: &Typed, env: &Env) -> Result<(), NoMemory> {
    if !fits(e, env) {
        out.extend_from_slice(b"no such signal")?;
        return Ok(());
    }
    push_decimal(out, u64::from(e.width))?;
    out.push(b' ')?;
    push_hex(out, value(e, env).value(), 0)
}

/// The width and the value of each expression of a row, in hexadecimal, with commas between them; behind them, the first word that
/// has no meaning where it stands.
pub fn values(alloc: Global, text: &[u8]) -> Result<Vec<u8>, NoMemory> {
    let mut out = Vec::new(alloc);
    let mut list = Vec::new(alloc);
    for part in text.split(|byte| *byte == b' ') {
        let word = word_of(alloc, part)?;
        if !takes_expression(alloc, &mut list, &word)? {
            out.extend_from_slice(part)?;
            return Ok(out);
        }
    }
    let env = two_signals(alloc)?;
    for e in &list {
        if !out.is_empty() {
            out.extend_from_slice(b", ")?;
        }
        push_expression(&mut out, e, &env)?;
    }
    Ok(out)
}
