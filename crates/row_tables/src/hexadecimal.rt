// Numbers in hexadecimal.
use ls_text::NoMemory;

// A digit of 0 to 15.
fn digit_text(digit: u8) -> u8 {
    if digit < 10 {
        b'0' | digit
    } else {
        (b'a' - 10).saturating_add(digit)
    }
}

/// A number in hexadecimal, in at least so many of its lowest digits; without leading zeros where that is 0.
pub fn push_hex(out: &mut Vec<u8>, number: u128, digits: u8) -> Result<(), NoMemory> {
    for left in 0..32u32 {
        let at = 31 - left;
        let rest = number >> (at * 4);
        if rest != 0 || at < u32::from(digits) || at == 0 {
            out.push(digit_text((rest & 15) as u8))?;
        }
    }
    Ok(())
}
