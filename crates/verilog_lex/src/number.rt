// The literals that decimals and based parts stand for.
ghost use Rattle.std.specs.Prelude.{◌≡◌, ◌+◌, ◌*◌, ◌%◌, ◌^◌, ◌<◌, ◌≤◌, ◌==◌, if◌then◌else◌, IfSome, Some};
ghost use Rattle.std.specs.Option.{option_map};
ghost use Rattle.verilog_lex.specs.Numbers.{digit_of, digits_value, covered, digits_mask, has_wild, number_of, wild_of, based_literal, plain_literal, size_of, sized_literal};

use crate::based::is_wild;
use crate::number_part::Based;
use crate::{Kind, Literal};
use ls_text::byte_at;

// The value of a digit; a wildcard digit counts as 0.
fn digit_of(byte: u8) -> Option<u8>
    ensures value { result ≡ digit_of byte }
    ensures small { IfSome result (λ d. d < 16) }
{
    match byte {
        b'0'..=b'9' => Some(byte - b'0'),
        b'a'..=b'f' => Some(byte - b'a' + 10),
        b'A'..=b'F' => Some(byte - b'A' + 10),
        b'z' | b'Z' | b'?' => Some(0),
        _ => None,
    }
}

// The value of digits, where each is of the radix and it is below 2 ^ 128.
#[tactic(auto, unfolding(crate::specs::Numbers::digits_value))]
fn digits_value(radix: u8, digits: &[u8]) -> Option<u128>
    requires { 1 ≤ radix }
    ensures { result ≡ digits_value radix digits.now }
{
    let mut value = 0u128;
    for byte in digits {
        if *byte != b'_' {
            let digit = digit_of(*byte)?;
            if radix <= digit {
                return None;
            }
            value = value
                .checked_mul(radix as u128)?
                .checked_add(digit as u128)?;
        }
    }
    Some(value)
}

// The 128 bits that are covered, with those of one more byte.
#[tactic(auto, using(crate::proofs::Masks::added))]
fn mask_more(radix: u8, mask: u128, byte: u8) -> u128
    requires { 1 ≤ radix }
    ensures { result ≡ (if byte == 95 then mask else (mask * radix + covered radix byte) % 2 ^ 128) }
{
    if byte == b'_' {
        return mask;
    }
    let covered = if is_wild(byte) { radix - 1 } else { 0 };
    mask.wrapping_mul(radix as u128)
        .wrapping_add(covered as u128)
}

// The 128 bits that wildcard digits cover.
#[tactic(auto, unfolding(crate::specs::Numbers::digits_mask))]
fn digits_mask(radix: u8, digits: &[u8]) -> u128
    requires { 1 ≤ radix }
    ensures { result ≡ digits_mask radix digits.now }
{
    let mut mask = if is_wild(byte_at(digits, 0)) {
        u128::MAX
    } else {
        0
    };
    for byte in digits {
        mask = mask_more(radix, mask, *byte);
    }
    mask
}

// Whether any digit is a wildcard.
fn has_wild(digits: &[u8]) -> bool
    ensures { result ≡ has_wild digits.now }
{
    digits.iter().any(|d| is_wild(*d))
}

// The lowest bits of a value.
fn cut(value: u128, size: u8) -> u128
    requires some { 1 ≤ size }
    requires within { size ≤ 128 }
    ensures { result ≡ value % 2 ^ size }
{
    if size == 128 {
        value
    } else {
        value % (1u128 << size)
    }
}

// The Number of a value, cut to its size; None where it has no size and doesn't fit 32 bits.
#[tactic(auto, unfolding(crate::specs::Numbers::number_of))]
fn number_of(size: u8, signed: bool, value: u128) -> Option<(Kind, Literal)>
    requires { size ≤ 128 }
    ensures { result ≡ number_of size signed value }
{
    if size == 0 {
        if 4_294_967_295 < value {
            return None;
        }
        let literal = Literal {
            size,
            signed,
            value,
            mask: 0,
        };
        return Some((Kind::Number, literal));
    }
    let literal = Literal {
        size,
        signed,
        value: cut(value, size),
        mask: 0,
    };
    Some((Kind::Number, literal))
}

// The Wild of a value and its digits; None without a size, signed, or of decimal digits.
#[tactic(auto, unfolding(crate::specs::Numbers::wild_of))]
fn wild_of(size: u8, part: Based<'_>, value: u128) -> Option<(Kind, Literal)>
    requires { size ≤ 128 }
    ensures { result ≡ wild_of size part.entry.signed part.entry.radix part.entry.digits.now value }
{
    if size == 0 || part.signed || part.radix == 10 {
        return None;
    }
    let literal = Literal {
        size,
        signed: false,
        value: cut(value, size),
        mask: cut(digits_mask(part.radix, part.digits), size),
    };
    Some((Kind::Wild, literal))
}

/// A based part under a size from 1 to 128, or under none, which is 0.
#[tactic(auto, unfolding(crate::specs::Numbers::based_literal))]
pub fn based_literal(size: u8, part: Based<'_>) -> Option<(Kind, Literal)>
    requires { size ≤ 128 }
    ensures { result ≡ based_literal size part.entry.signed part.entry.radix part.entry.digits.now }
{
    let value = digits_value(part.radix, part.digits)?;
    if has_wild(part.digits) {
        wild_of(size, part, value)
    } else {
        number_of(size, part.signed, value)
    }
}

/// A plain decimal alone.
#[tactic(auto, unfolding(crate::specs::Numbers::plain_literal))]
pub fn plain_literal(digits: &[u8]) -> Option<(Kind, Literal)>
    ensures { result ≡ plain_literal digits.now }
{
    let value = digits_value(10, digits)?;
    number_of(0, true, value)
}

// A size, from 1 to 128.
#[tactic(auto, unfolding(crate::specs::Numbers::size_of))]
fn size_of(digits: &[u8]) -> Option<u8>
    ensures value { result ≡ size_of digits.now }
    ensures within { IfSome result (λ n. n ≤ 128) }
{
    let size = digits_value(10, digits)?;
    if 1 <= size && size <= 128 {
        Some(size as u8)
    } else {
        None
    }
}

/// A plain decimal and the based part behind it.
#[tactic(auto, unfolding(crate::specs::Numbers::sized_literal))]
pub fn sized_literal(digits: &[u8], part: Based<'_>) -> Option<(Kind, Literal)>
    ensures { result ≡ sized_literal digits.now (part.entry.signed, part.entry.radix, part.entry.digits.now) }
{
    let size = size_of(digits)?;
    based_literal(size, part)
}
