// The operators and the other signs.
ghost use Rattle.std.specs.Prelude.{◌≡◌, ◌<◌, ◌≤◌, length, take};
ghost use Rattle.verilog_lex.specs.Keywords.{kind_in};
ghost use Rattle.verilog_lex.specs.Signs.{triples, doubles, singles};
ghost use Rattle.verilog_lex.specs.Cuts.{mark_at};
ghost use Rattle.verilog_lex.specs.Forms.{form};

use crate::Kind;
use crate::keyword::kind_in;
use crate::shape::Shape;
use ls_text::front;

const TRIPLES: [(&[u8], Kind); 4] = [
    (b"<<<", Kind::SignedShiftLeft),
    (b">>>", Kind::SignedShiftRight),
    (b"===", Kind::CaseEqual),
    (b"!==", Kind::CaseNotEqual),
];

const DOUBLES: [(&[u8], Kind); 16] = [
    (b"+:", Kind::PlusColon),
    (b"-:", Kind::MinusColon),
    (b"<<", Kind::ShiftLeft),
    (b">>", Kind::ShiftRight),
    (b"<=", Kind::LessEqual),
    (b">=", Kind::GreaterEqual),
    (b"==", Kind::EqualEqual),
    (b"!=", Kind::NotEqual),
    (b"&&", Kind::LogicalAnd),
    (b"||", Kind::LogicalOr),
    (b"~&", Kind::TildeAmpersand),
    (b"~|", Kind::TildeBar),
    (b"~^", Kind::TildeCaret),
    (b"^~", Kind::CaretTilde),
    (b"**", Kind::Power),
    (b"->", Kind::Arrow),
];

const SINGLES: [(&[u8], Kind); 26] = [
    (b"(", Kind::LeftParen),
    (b")", Kind::RightParen),
    (b"[", Kind::LeftBracket),
    (b"]", Kind::RightBracket),
    (b"{", Kind::LeftBrace),
    (b"}", Kind::RightBrace),
    (b",", Kind::Comma),
    (b";", Kind::Semicolon),
    (b":", Kind::Colon),
    (b".", Kind::Dot),
    (b"#", Kind::Hash),
    (b"@", Kind::AtSign),
    (b"=", Kind::Equal),
    (b"?", Kind::Question),
    (b"+", Kind::Plus),
    (b"-", Kind::Minus),
    (b"*", Kind::Star),
    (b"/", Kind::Slash),
    (b"%", Kind::Percent),
    (b"&", Kind::Ampersand),
    (b"|", Kind::Bar),
    (b"^", Kind::Caret),
    (b"~", Kind::Tilde),
    (b"!", Kind::Bang),
    (b"<", Kind::Less),
    (b">", Kind::Greater),
];

// The sign of three bytes at the front.
#[tactic(auto, unfolding(crate::specs::Signs::triples))]
fn triple(text: &[u8]) -> Option<Kind>
    ensures { result ≡ kind_in triples text.now }
{
    kind_in(&TRIPLES, text)
}

// The sign of two bytes at the front.
#[tactic(auto, unfolding(crate::specs::Signs::doubles))]
fn double(text: &[u8]) -> Option<Kind>
    ensures { result ≡ kind_in doubles text.now }
{
    kind_in(&DOUBLES, text)
}

// The sign of one byte.
#[tactic(auto, unfolding(crate::specs::Signs::singles))]
fn single(text: &[u8]) -> Option<Kind>
    ensures { result ≡ kind_in singles text.now }
{
    kind_in(&SINGLES, text)
}

/// The longest sign at the front of a text that isn't empty, and its length; a stray byte where there is none.
#[tactic(auto, unfolding(crate::specs::Cuts::mark_at))]
pub fn mark(text: &[u8]) -> (Shape<'_>, usize)
    requires { 0 < length text.now }
    ensures value { (form result.0, result.1) ≡ mark_at text.now }
    ensures some { 0 < result.1 }
    ensures within { result.1 ≤ length text.now }
{
    let three = front(text, 3);
    if let Some(kind) = triple(three) {
        return (Shape::Mark(kind, three), three.len());
    }
    let two = front(text, 2);
    if let Some(kind) = double(two) {
        return (Shape::Mark(kind, two), two.len());
    }
    let one = front(text, 1);
    match single(one) {
        Some(kind) => (Shape::Mark(kind, one), one.len()),
        None => (Shape::Stray, 1),
    }
}
