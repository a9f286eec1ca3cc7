// The body of a macro.
ghost use Rattle.std.specs.Prelude.{◌≡◌, ◌<◌, ◌≤◌, ◌+◌, ◌++◌, ◌∷◌, [], length, IfSome, IfOk, OnOk, IsTrue, false};
ghost use Rattle.verilog_pre.specs.Parts.{Use};
ghost use Rattle.verilog_pre.specs.Tables.{table_of, Sound};
ghost use Rattle.verilog_pre.specs.Views.{part_of, parts_of, IsListed};
ghost use Rattle.verilog_pre.specs.Bodies.{lines_len, comment_len, begins_cut, run_len, comment_or, body_cut, cut_len, goes_on, ends_body, kept_len, run_part, cut_parts, trimmed_parts, trimmed_len, body_parts, body_len};

use crate::body_cut::BodyCut;
use crate::macros::Macros;
use crate::part::Part;
use crate::stretch::Stretch;
use crate::table::number_of;
use ls_text::{
    NoMemory, behind, blank_len, byte_at, front, is_letter, line_len, trailing_space_len, word_len,
};

// How many bytes stand before the first newline with no backslash right before it.
fn lines_len(text: &[u8]) -> usize
    ensures value { result ≡ lines_len false 0 text.now }
    ensures within { result ≤ length text.now }
{
    let mut escaped = false;
    let mut n = 0;
    for byte in text {
        if *byte == b'\n' && !escaped {
            return n;
        }
        escaped = *byte == b'\\';
        n += 1;
    }
    n
}

// How many bytes end with the first `*/` within these lines.
fn comment_len(text: &[u8]) -> Option<usize>
    ensures value { result ≡ comment_len 0 0 text.now }
    ensures within { IfSome result (λ n. n ≤ length text.now) }
{
    let mut last = 0;
    let mut n = 0;
    for byte in text {
        if last == b'*' && *byte == b'/' {
            return Some(n + 1);
        }
        if *byte == b'\n' && last != b'\\' {
            return None;
        }
        last = *byte;
        n += 1;
    }
    None
}

/// Whether two bytes begin a comment or the use of a macro.
pub fn begins_cut(first: u8, second: u8) -> bool
    ensures { result ≡ begins_cut first second }
{
    (first == b'/' && (second == b'/' || second == b'*')) || (first == b'`' && is_letter(second))
}

// How many bytes stand before the next cut, behind a first byte that begins none.
fn run_len(text: &[u8]) -> usize
    ensures value { result ≡ run_len 0 1 text.now }
    ensures within { result ≤ length text.now + 1 }
    ensures some { 1 ≤ result }
{
    let mut last = 0;
    let mut n = 1;
    for byte in text {
        if *byte == b'\n' {
            return if last == b'\\' { n - 1 } else { n };
        }
        if begins_cut(last, *byte) {
            return n - 1;
        }
        last = *byte;
        n += 1;
    }
    n
}

// A comment, by what stands behind its `/*`.
fn comment_cut(inside: &[u8]) -> BodyCut
    requires { length inside.now < 4294967296 }
    ensures value { result ≡ comment_or inside.now (comment_len 0 0 inside.now) }
    ensures within { cut_len result ≤ 2 + length inside.now }
    ensures some { 0 < cut_len result }
{
    match comment_len(inside) {
        Some(n) => BodyCut::Gap(2 + n),
        None => BodyCut::Open(2 + lines_len(inside)),
    }
}

// The first cut of a body's text that isn't empty.
#[tactic(auto, unfolding(crate::specs::Bodies::body_cut))]
fn body_cut(text: &[u8]) -> BodyCut
    requires some { 0 < length text.now }
    requires small { length text.now ≤ 4194304 }
    ensures value { result ≡ body_cut text.now }
    ensures within { cut_len result ≤ length text.now }
    ensures some { IsTrue (goes_on result) → 0 < cut_len result }
{
    let first = byte_at(text, 0);
    let second = byte_at(text, 1);
    if first == b'\n' {
        BodyCut::Last(0)
    } else if first == b'\\' && second == b'\n' {
        BodyCut::Gap(2)
    } else if first == b'/' && second == b'/' {
        BodyCut::Last(line_len(text))
    } else if first == b'/' && second == b'*' {
        comment_cut(behind(text, 2))
    } else if first == b'`' && is_letter(second) {
        BodyCut::Use(1 + word_len(behind(text, 1)))
    } else {
        BodyCut::Run(run_len(behind(text, 1)))
    }
}

// Adds a part.
#[tactic(auto, unfolding(crate::specs::Tables::table_of, crate::specs::Views::parts_of), using(crate::proofs::Parts::one_more, crate::proofs::Sounds::sound_more))]
fn push_part(macros: &mut Macros, part: Part) -> Result<(), NoMemory>
    requires sound { Sound macros.old }
    requires listed { IsListed (length macros.old.words) part }
    ensures parts { OnOk result (parts_of macros.new ≡ parts_of macros.old ++ part_of macros.old.words part ∷ []) }
    ensures table { OnOk result (table_of macros.new ≡ table_of macros.old) }
    ensures places { OnOk result (macros.new.places ≡ macros.old.places) }
    ensures sound { OnOk result (Sound macros.new) }
{
    macros.parts.push(part)?;
    Ok(())
}

// Whether a body ends where this stands behind it.
fn ends_body(rest: &[u8]) -> bool
    ensures { result ≡ ends_body rest.now }
{
    let first = byte_at(rest, 0);
    rest.is_empty() || first == b'\n' || (first == b'/' && byte_at(rest, 1) == b'/')
}

// How many bytes of a run count: white space at the body's end doesn't.
fn kept_len(run: &[u8], rest: &[u8]) -> usize
    ensures value { result ≡ kept_len run.now rest.now }
    ensures within { result ≤ length run.now }
{
    if ends_body(rest) {
        run.len() - trailing_space_len(run)
    } else {
        run.len()
    }
}

// Adds a run before the rest of the text.
fn push_run(
    macros: &mut Macros,
    file: u16,
    offset: u32,
    run: &[u8],
    rest: &[u8],
) -> Result<(), NoMemory>
    requires sound { Sound macros.old }
    requires room { offset + length run.now ≤ 4194304 }
    ensures parts { OnOk result (parts_of macros.new ≡ parts_of macros.old ++ run_part file offset run.now rest.now) }
    ensures table { OnOk result (table_of macros.new ≡ table_of macros.old) }
    ensures places { OnOk result (macros.new.places ≡ macros.old.places) }
    ensures sound { OnOk result (Sound macros.new) }
{
    let kept = kept_len(run, rest);
    if 0 < kept {
        let end = offset + kept as u32;
        return push_part(
            macros,
            Part::Text(Stretch {
                file,
                start: offset,
                end,
            }),
        );
    }
    Ok(())
}

// Adds the use of a word.
fn push_use(macros: &mut Macros, word: &[u8]) -> Result<(), NoMemory>
    requires { Sound macros.old }
    ensures parts { OnOk result (parts_of macros.new ≡ parts_of macros.old ++ Use word.now ∷ []) }
    ensures table { OnOk result (table_of macros.new ≡ table_of macros.old) }
    ensures places { OnOk result (macros.new.places ≡ macros.old.places) }
    ensures sound { OnOk result (Sound macros.new) }
{
    let id = number_of(macros, word)?;
    push_part(macros, Part::Use(id))
}

// Adds the parts of a cut.
fn push_cut(
    macros: &mut Macros,
    file: u16,
    offset: u32,
    text: &[u8],
    cut: BodyCut,
) -> Result<(), NoMemory>
    requires sound { Sound macros.old }
    requires room { offset + length text.now ≤ 4194304 }
    requires within { cut_len cut ≤ length text.now }
    ensures parts { OnOk result (parts_of macros.new ≡ parts_of macros.old ++ cut_parts file offset text.now cut) }
    ensures table { OnOk result (table_of macros.new ≡ table_of macros.old) }
    ensures places { OnOk result (macros.new.places ≡ macros.old.places) }
    ensures sound { OnOk result (Sound macros.new) }
{
    match cut {
        BodyCut::Run(n) => push_run(macros, file, offset, front(text, n), behind(text, n)),
        BodyCut::Use(n) => push_use(macros, front(behind(text, 1), n.saturating_sub(1))),
        BodyCut::Open(_) => push_part(macros, Part::Open),
        BodyCut::Gap(_) | BodyCut::Last(_) => Ok(()),
    }
}

// Adds the parts of a body that no white space begins, and answers how many bytes the body has.
#[tactic(auto, unfolding(crate::specs::Bodies::trimmed_parts, crate::specs::Bodies::trimmed_len))]
fn read_trimmed(macros: &mut Macros, file: u16, offset: u32, text: &[u8]) -> Result<usize, NoMemory>
    requires sound { Sound macros.old }
    requires room { offset + length text.now ≤ 4194304 }
    ensures parts { OnOk result (parts_of macros.new ≡ parts_of macros.old ++ trimmed_parts file offset text.now) }
    ensures length { IfOk result (λ n. n ≡ trimmed_len text.now) }
    ensures within { IfOk result (λ n. n ≤ length text.now) }
    ensures table { OnOk result (table_of macros.new ≡ table_of macros.old) }
    ensures places { OnOk result (macros.new.places ≡ macros.old.places) }
    ensures sound { OnOk result (Sound macros.new) }
{
    let mut rest = text;
    let mut at = offset;
    while !rest.is_empty() {
        let cut = body_cut(rest);
        push_cut(macros, file, at, rest, cut)?;
        let n = cut.len();
        if !cut.goes_on() {
            return Ok(text.len() - rest.len() + n);
        }
        rest = rest.split_at(n).1;
        at += n as u32;
    }
    Ok(text.len())
}

/// Adds the parts of the body that begins a text, and answers how many bytes the body has. White space at its two ends is in
/// no part.
#[tactic(auto, unfolding(crate::specs::Bodies::body_parts, crate::specs::Bodies::body_len))]
pub fn read_body(
    macros: &mut Macros,
    file: u16,
    offset: u32,
    text: &[u8],
) -> Result<usize, NoMemory>
    requires sound { Sound macros.old }
    requires room { offset + length text.now ≤ 4194304 }
    ensures parts { OnOk result (parts_of macros.new ≡ parts_of macros.old ++ body_parts file offset text.now) }
    ensures length { IfOk result (λ n. n ≡ body_len text.now) }
    ensures within { IfOk result (λ n. n ≤ length text.now) }
    ensures table { OnOk result (table_of macros.new ≡ table_of macros.old) }
    ensures places { OnOk result (macros.new.places ≡ macros.old.places) }
    ensures sound { OnOk result (Sound macros.new) }
{
    let lead = blank_len(text);
    let n = read_trimmed(macros, file, offset + lead as u32, text.split_at(lead).1)?;
    Ok(lead + n)
}
