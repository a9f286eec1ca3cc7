// Overrides of rows: `8u255` has 8 bits and is unsigned, `32s7` is signed, `-` is none; commas part them.
use bits::Bits;
use ls_text::NoMemory;
use std::alloc::Global;
use typed_ir::Const;

// A number in decimal digits.
fn decimal(text: &[u8]) -> u128 {
    let mut n = 0u128;
    for byte in text {
        n = n.saturating_mul(10).saturating_add(u128::from(*byte & 15));
    }
    n
}

// One override; none where it has no width.
fn one(text: &[u8]) -> Option<Const> {
    let digits = text.iter().take_while(|b| b.is_ascii_digit()).count();
    if digits == 0 || digits >= text.len() {
        return None;
    }
    let (width, rest) = text.split_at(digits);
    let (sign, value) = rest.split_at(1);
    let width = decimal(width).clamp(1, 128) as u8;
    Some(Const {
        bits: Bits::new(width, decimal(value)),
        signed: sign == b"s".as_slice(),
    })
}

/// The overrides that a text lists.
pub fn overrides(alloc: Global, text: &[u8]) -> Result<Vec<Option<Const>>, NoMemory> {
    let mut all = Vec::new(alloc);
    for word in text.split(|b| *b == b',') {
        all.push(one(word))?;
    }
    Ok(all)
}
