// What each call makes of the numbers of a row, as a text.
ghost use Rattle.std.specs.Prelude.{◌≡◌};

use crate::numbers::Numbers;
use bits::Bits;
use ls_text::NoMemory;
use row_tables::push_hex;

// A value, with a digit for each four bits, and a space.
fn push_value(out: &mut Vec<u8>, value: Bits) -> Result<(), NoMemory> {
    push_hex(out, value.value(), value.width().div_ceil(4))?;
    out.push(b' ')?;
    Ok(())
}

fn push_truth(out: &mut Vec<u8>, truth: bool) -> Result<(), NoMemory> {
    out.push(if truth { b'1' } else { b'0' })?;
    out.push(b' ')?;
    Ok(())
}

// The two values of one width that a row begins with.
fn pair(numbers: &Numbers) -> (Bits, Bits)
    ensures { result.1.width ≡ result.0.width }
{
    let width = numbers.width(0);
    (
        Bits::new(width, numbers.value(1)),
        Bits::new(width, numbers.value(2)),
    )
}

pub fn sums(out: &mut Vec<u8>, numbers: &Numbers) -> Result<(), NoMemory> {
    let (a, b) = pair(numbers);
    push_value(out, a.add(b))?;
    push_value(out, a.sub(b))?;
    push_value(out, a.mul(b))?;
    push_value(out, b.neg())
}

pub fn quotients(out: &mut Vec<u8>, numbers: &Numbers) -> Result<(), NoMemory> {
    let (a, b) = pair(numbers);
    push_value(out, a.div(b, true))?;
    push_value(out, a.rem(b, true))?;
    push_value(out, a.div(b, false))?;
    push_value(out, a.rem(b, false))?;
    push_truth(out, a.lt(b, true))?;
    push_truth(out, a.lt(b, false))
}

pub fn bits_one_by_one(out: &mut Vec<u8>, numbers: &Numbers) -> Result<(), NoMemory> {
    let (a, b) = pair(numbers);
    push_value(out, a.and(b))?;
    push_value(out, a.or(b))?;
    push_value(out, a.xor(b))?;
    push_value(out, a.not())?;
    push_truth(out, a.reduce_and())?;
    push_truth(out, a.reduce_or())?;
    push_truth(out, a.reduce_xor())
}

pub fn shifts(out: &mut Vec<u8>, numbers: &Numbers) -> Result<(), NoMemory> {
    let a = numbers.bits(0);
    let by = Bits::new(128, numbers.value(2));
    push_value(out, a.shl(by))?;
    push_value(out, a.shr(by))?;
    push_value(out, a.sar(by))
}

pub fn runs_read(out: &mut Vec<u8>, numbers: &Numbers) -> Result<(), NoMemory> {
    push_value(
        out,
        numbers.bits(0).select(numbers.place(2), numbers.width(3)),
    )
}

pub fn runs_written(out: &mut Vec<u8>, numbers: &Numbers) -> Result<(), NoMemory> {
    push_value(
        out,
        numbers.bits(0).replace(numbers.place(2), numbers.bits(3)),
    )
}

// Both parts have 128 bits at most.
pub fn joined(out: &mut Vec<u8>, numbers: &Numbers) -> Result<(), NoMemory> {
    let upper = numbers.bits(0);
    let lower = numbers.bits(2);
    if upper.width() <= 128 - lower.width() {
        push_value(out, upper.concat(lower))?;
    }
    Ok(())
}

pub fn widths(out: &mut Vec<u8>, numbers: &Numbers) -> Result<(), NoMemory> {
    let a = numbers.bits(0);
    let width = numbers.width(2);
    let reading = a.as_signed();
    if reading < 0 {
        out.push(b'-')?;
    }
    push_hex(out, reading.unsigned_abs(), 0)?;
    out.push(b' ')?;
    push_value(out, a.resize(width, false))?;
    push_value(out, a.resize(width, true))
}
