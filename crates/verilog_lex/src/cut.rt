// The first cut of a text: the longest token, white space or attribute at its front.
ghost use Rattle.std.specs.Prelude.{◌≡◌, ◌<◌, ◌≤◌, length};
ghost use Rattle.std.specs.List.{prefix_len};
ghost use Rattle.verilog_lex.specs.Cuts.{is_decimal_byte, opens_attribute, attribute_at, cut_at};
ghost use Rattle.verilog_lex.specs.Forms.{form};

use crate::based::based_part;
use crate::mark::mark;
use crate::shape::Shape;
use ls_text::{
    behind, byte_at, front, is_digit, is_letter, is_space, space_len, through_pair, word_len,
};

// A byte of an unsigned number (IEEE 1364-2005, clause 3.5.1).
fn is_decimal_byte(byte: u8) -> bool
    ensures { result ≡ is_decimal_byte byte }
{
    is_digit(byte) || byte == b'_'
}

// How many bytes the unsigned number at the front has.
fn decimal_len(text: &[u8]) -> usize
    ensures value { result ≡ prefix_len is_decimal_byte text.now }
    ensures within { result ≤ length text.now }
{
    text.iter().take_while(|b| is_decimal_byte(**b)).count()
}

// Whether `(*` at the front opens an attribute: its next byte that isn't white space is there, and isn't `)`.
#[tactic(auto, unfolding(crate::specs::Cuts::opens_attribute))]
fn opens_attribute(text: &[u8]) -> bool
    ensures { result ≡ opens_attribute text.now }
{
    let rest = behind(text, 2);
    let next = behind(rest, space_len(rest));
    byte_at(text, 0) == b'('
        && byte_at(text, 1) == b'*'
        && !next.is_empty()
        && byte_at(next, 0) != b')'
}

// The attribute at the front, to the next `*)`; a stray byte where there is none.
#[tactic(auto, unfolding(crate::specs::Cuts::attribute_at))]
fn attribute(text: &[u8]) -> (Shape<'_>, usize)
    requires { 0 < length text.now }
    ensures value { (form result.0, result.1) ≡ attribute_at text.now }
    ensures some { 0 < result.1 }
    ensures within { result.1 ≤ length text.now }
{
    match through_pair(b'*', b')', behind(text, 2)) {
        Some(n) => (Shape::Blank, 2 + n),
        None => (Shape::Stray, 1),
    }
}

/// The first cut of a text that isn't empty, and its length.
#[tactic(auto, unfolding(crate::specs::Cuts::cut_at))]
pub fn cut(text: &[u8]) -> (Shape<'_>, usize)
    requires { 0 < length text.now }
    ensures value { (form result.0, result.1) ≡ cut_at text.now }
    ensures some { 0 < result.1 }
    ensures within { result.1 ≤ length text.now }
{
    let first = byte_at(text, 0);
    if is_space(first) {
        (Shape::Blank, space_len(text))
    } else if is_letter(first) {
        let n = word_len(text);
        (Shape::Word(front(text, n)), n)
    } else if is_digit(first) {
        let n = decimal_len(text);
        (Shape::Decimal(front(text, n)), n)
    } else if first == b'\'' {
        match based_part(text) {
            Some(part) => part,
            None => (Shape::Stray, 1),
        }
    } else if opens_attribute(text) {
        attribute(text)
    } else {
        mark(text)
    }
}
