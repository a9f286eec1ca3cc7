// How rows show a value and a fault.
use bits::Bits;
use ls_text::{Names, NoMemory, Refusal, behind};
use row_tables::{fault_text, push_hex, texts_of};
use std::alloc::Global;

/// A value in hexadecimal, with as many digits as a quarter of the width.
pub fn push_value(out: &mut Vec<u8>, bits: Bits) -> Result<(), NoMemory> {
    push_hex(out, bits.value(), bits.width().div_ceil(4))
}

/// The fault of a refusal, behind what is there.
pub fn push_refusal(
    alloc: Global,
    out: &mut Vec<u8>,
    names: &mut Names,
    refusal: Refusal,
) -> Result<(), NoMemory> {
    match refusal {
        Refusal::NoMemory => Err(NoMemory),
        Refusal::Fault(fault) => {
            let texts = texts_of(alloc, names)?;
            let mut shown = Vec::new(alloc);
            fault_text(&mut shown, &texts, &fault)?;
            if fault.names.ids().is_empty() {
                shown.extend_from_slice(b" -")?;
            }
            out.extend_from_slice(behind(&shown, 1))?;
            Ok(())
        }
    }
}
