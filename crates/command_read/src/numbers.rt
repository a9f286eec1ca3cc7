// Numbers in digits.
ghost use Rattle.std.specs.Prelude.{◌≡◌, ◌≤◌, ◌<◌, ◌^◌, IfSome};
ghost use Rattle.command_read.specs.Values.{number_in, count_of, hex_of};

/// The number that digits of a base spell, below 2 ^ 128. The base is from 2 to 36.
#[tactic(auto, unfolding(crate::specs::Values::number_in))]
fn number_in(base: u32, digits: &[u8]) -> Option<u128>
    requires least { 2 ≤ base }
    requires most { base ≤ 36 }
    ensures { result ≡ number_in base digits.now }
{
    if digits.is_empty() {
        return None;
    }
    let mut value = 0u128;
    for byte in digits {
        let digit = char::from(*byte).to_digit(base)?;
        value = value.checked_mul(base as u128)?.checked_add(digit as u128)?;
    }
    Some(value)
}

/// The number that 1 to 20 decimal digits spell, below 2 ^ 64.
#[tactic(auto, unfolding(crate::specs::Values::count_of))]
pub fn count_of(word: &[u8]) -> Option<u64>
    ensures { result ≡ count_of word.now }
{
    let n = number_in(10, word)?;
    if word.len() <= 20 && n <= u128::from(u64::MAX) {
        Some(n as u64)
    } else {
        None
    }
}

/// The number that 1 to 32 hexadecimal digits spell.
#[tactic(auto, unfolding(crate::specs::Values::hex_of))]
pub fn hex_of(word: &[u8]) -> Option<u128>
    ensures { result ≡ hex_of word.now }
{
    let n = number_in(16, word)?;
    if word.len() <= 32 { Some(n) } else { None }
}
