// The based part of a number.
ghost use Rattle.std.specs.Prelude.{◌≡◌, ◌<◌, ◌≤◌, length, IfSome};
ghost use Rattle.std.specs.Option.{option_map};
ghost use Rattle.std.specs.List.{prefix_len};
ghost use Rattle.verilog_lex.specs.Cuts.{is_wild, is_part_digit, is_part_byte, is_sign_letter, radix_of, part_at};
ghost use Rattle.verilog_lex.specs.Forms.{form, Part};

use crate::number_part::Based;
use crate::shape::Shape;
use ls_text::{behind, byte_at, front, is_digit, space_len};

/// Whether a digit matches any bit.
pub fn is_wild(byte: u8) -> bool
    ensures { result ≡ is_wild byte }
{
    matches!(byte, b'z' | b'Z' | b'?')
}

// A digit of any radix, `x` and `X` among them.
fn is_part_digit(byte: u8) -> bool
    ensures { result ≡ is_part_digit byte }
{
    is_digit(byte) || matches!(byte, b'a'..=b'f' | b'A'..=b'F' | b'x' | b'X') || is_wild(byte)
}

// A digit, or the underscore that parts digits.
fn is_part_byte(byte: u8) -> bool
    ensures { result ≡ is_part_byte byte }
{
    is_part_digit(byte) || byte == b'_'
}

// How many bytes the digits at the front have.
fn part_len(text: &[u8]) -> usize
    ensures value { result ≡ prefix_len is_part_byte text.now }
    ensures within { result ≤ length text.now }
{
    text.iter().take_while(|b| is_part_byte(**b)).count()
}

// The letter that makes a based literal signed.
fn is_sign_letter(byte: u8) -> bool
    ensures { result ≡ is_sign_letter byte }
{
    matches!(byte, b's' | b'S')
}

// The radix that a letter stands for; 0 for any other byte.
fn radix_of(byte: u8) -> u8
    ensures { result ≡ radix_of byte }
{
    match byte {
        b'b' | b'B' => 2,
        b'o' | b'O' => 8,
        b'd' | b'D' => 10,
        b'h' | b'H' => 16,
        _ => 0,
    }
}

/// The based part that begins with the quote at the front, and its length.
#[tactic(auto, unfolding(crate::specs::Cuts::part_at))]
pub fn based_part(text: &[u8]) -> Option<(Shape<'_>, usize)>
    ensures value { option_map (λ r. (form r.0, r.1)) result ≡ part_at text.now }
    ensures within { IfSome result (λ r. r.1 ≤ length text.now) }
    ensures some { IfSome result (λ r. 0 < r.1) }
{
    let signed = is_sign_letter(byte_at(text, 1));
    let from = if signed { 3 } else { 2 };
    let radix = radix_of(byte_at(text, from - 1));
    let after = behind(text, from);
    let gap = space_len(after);
    let digits = behind(after, gap);
    let n = part_len(digits);
    if 0 < radix && is_part_digit(byte_at(digits, 0)) {
        let part = Based {
            signed,
            radix,
            digits: front(digits, n),
        };
        Some((Shape::Based(part), from + gap + n))
    } else {
        None
    }
}
