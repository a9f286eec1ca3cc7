// The one spelling of a module's tokens, by which two texts of one module are the same.
ghost use Rattle.std.specs.Prelude.{◌≡◌, ◌==◌, ◌++◌, ◌<◌, ◌≤◌, length, All, IfOk, OnOk};
ghost use Rattle.std.specs.List.{prefix_len};
ghost use Rattle.verilog_spelling.specs.Spellings.{spelling, spaced, token_text, number_text, pattern_text, hex_text, binary_digits, binary_digit_of, size_text};

use hex::encode_to_slice;
use ls_text::{Names, NoMemory, push_decimal};
use std::alloc::Global;
use verilog_lex::{Kind, Literal, Token};

/// The texts of the tokens, with single spaces between.
pub fn spelling(alloc: Global, names: &Names, tokens: &[Token]) -> Result<Vec<u8>, NoMemory>
    requires { All (λ t. t.text.0 < length names.now) tokens.now }
    ensures { IfOk result (λ text. text.items ≡ spelling names.now tokens.now) }
{
    let mut text = Vec::new(alloc);
    if let Some((first, rest)) = tokens.split_first() {
        push_token(&mut text, names, *first)?;
        push_spaced(&mut text, names, rest)?;
    }
    Ok(text)
}

// Each token after a space.
fn push_spaced(text: &mut Vec<u8>, names: &Names, tokens: &[Token]) -> Result<(), NoMemory>
    requires { All (λ t. t.text.0 < length names.now) tokens.now }
    ensures { OnOk result (text.new.items ≡ text.old.items ++ spaced names.now tokens.now) }
{
    for token in tokens {
        text.push(b' ')?;
        push_token(text, names, *token)?;
    }
    Ok(())
}

fn push_token(text: &mut Vec<u8>, names: &Names, token: Token) -> Result<(), NoMemory>
    requires { token.text.0 < length names.now }
    ensures { OnOk result (text.new.items ≡ text.old.items ++ token_text names.now token) }
{
    match token.kind {
        Kind::Number => push_number(text, token.literal),
        Kind::Wild => push_pattern(text, token.literal),
        _ => {
            text.extend_from_slice(names.text(token.text))?;
            Ok(())
        }
    }
}

// `S'UhV`
fn push_number(text: &mut Vec<u8>, literal: Literal) -> Result<(), NoMemory>
    ensures { OnOk result (text.new.items ≡ text.old.items ++ number_text literal) }
{
    push_size(text, literal.size)?;
    text.extend_from_slice(if literal.signed { b"'sh" } else { b"'h" })?;
    push_hex(text, literal.value)
}

// A size, where there is one.
fn push_size(text: &mut Vec<u8>, size: u8) -> Result<(), NoMemory>
    ensures { OnOk result (text.new.items ≡ text.old.items ++ size_text size) }
{
    if size == 0 {
        return Ok(());
    }
    push_decimal(text, u64::from(size))
}

// How many zeros lead the digits.
fn zeros(digits: &[u8]) -> usize
    ensures value { result ≡ prefix_len (λ c. c == 48) digits.now }
    ensures within { result ≤ length digits.now }
{
    digits.iter().take_while(|c| **c == b'0').count()
}

// A value in lower-case hexadecimal, without leading zeros.
fn push_hex(text: &mut Vec<u8>, value: u128) -> Result<(), NoMemory>
    ensures { OnOk result (text.new.items ≡ text.old.items ++ hex_text value) }
{
    let mut digits = [0u8; 32];
    let _ = encode_to_slice(value.to_be_bytes().as_slice(), &mut digits);
    let skipped = zeros(&digits).min(31);
    let (_, shown) = digits.as_slice().split_at(skipped);
    text.extend_from_slice(shown)?;
    Ok(())
}

// `S'bDIGITS`
fn push_pattern(text: &mut Vec<u8>, literal: Literal) -> Result<(), NoMemory>
    ensures { OnOk result (text.new.items ≡ text.old.items ++ pattern_text literal) }
{
    push_size(text, literal.size)?;
    text.extend_from_slice(b"'b")?;
    push_binary_digits(text, literal.size, literal.value, literal.mask)
}

// So many binary digits, from the highest, with a `?` where the mask has a 1.
fn push_binary_digits(text: &mut Vec<u8>, size: u8, value: u128, mask: u128) -> Result<(), NoMemory>
    ensures { OnOk result (text.new.items ≡ text.old.items ++ binary_digits size value mask) }
{
    let mut left = size;
    while left > 0 {
        left -= 1;
        text.push(binary_digit(left, value, mask))?;
    }
    Ok(())
}

fn binary_digit(bit: u8, value: u128, mask: u128) -> u8
    ensures { result ≡ binary_digit_of bit value mask }
{
    if bit >= 128 {
        return b'0';
    }
    if mask >> bit & 1 == 1 {
        b'?'
    } else if value >> bit & 1 == 1 {
        b'1'
    } else {
        b'0'
    }
}
