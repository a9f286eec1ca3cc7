// What the preprocessor and the lexer make of files, as texts.
//
// A row has one file, `a.v`, which stands behind an empty one here; or two, `a.v` and `b.v`, parted by a separator.
ghost use Rattle.std.specs.Prelude.{◌<◌, ◌≤◌, length, IfOk, IfErr, IfSome};
ghost use Rattle.std.specs.List.{All};
ghost use Rattle.ls_text.specs.Texts.{Grows};
ghost use Rattle.ls_text.specs.Readings.{CanShow};

use ls_text::{
    Names, NoMemory, Piece, Place, Refusal, SourceFile, TextBytes, behind, fault_line, front,
    push_decimal,
};
use row_tables::FILE_END;
use std::alloc::Global;
use verilog_lex::{Token, lex};
use verilog_pre::preprocess;

// How many bytes the first of two files has; none where there is one file.
fn first_len(text: &[u8]) -> Option<usize> {
    let mut at = 0usize;
    for byte in text {
        if *byte == FILE_END {
            return Some(at);
        }
        at = at.saturating_add(1);
    }
    None
}

// A text of at most 4,194,304 bytes; nothing of a longer one.
fn if_short(text: &[u8]) -> &[u8]
    ensures { length result.now ≤ 4194304 }
{
    if text.len() <= 4_194_304 { text } else { b"" }
}

fn source_file(
    alloc: Global,
    names: &mut Names,
    name: &[u8],
    text: &[u8],
) -> Result<SourceFile, NoMemory>
    ensures long { IfOk result (λ f. length f.text ≤ 4194304) }
    ensures known { IfOk result (λ f. f.name.0 < length names.new) }
    ensures grows { Grows names.old names.new }
{
    let name = names.intern(name)?;
    Ok(SourceFile {
        name,
        text: TextBytes::new(Vec::from_slice(alloc, if_short(text))?),
    })
}

fn first_file(alloc: Global, names: &mut Names, text: &[u8]) -> Result<SourceFile, NoMemory>
    ensures long { IfOk result (λ f. length f.text ≤ 4194304) }
    ensures known { IfOk result (λ f. f.name.0 < length names.new) }
    ensures grows { Grows names.old names.new }
{
    match first_len(text) {
        Some(n) => source_file(alloc, names, b"a.v", front(text, n)),
        None => source_file(alloc, names, b"none.v", b""),
    }
}

fn last_file(alloc: Global, names: &mut Names, text: &[u8]) -> Result<SourceFile, NoMemory>
    ensures long { IfOk result (λ f. length f.text ≤ 4194304) }
    ensures known { IfOk result (λ f. f.name.0 < length names.new) }
    ensures grows { Grows names.old names.new }
{
    match first_len(text) {
        Some(n) => source_file(alloc, names, b"b.v", behind(text, n.saturating_add(1))),
        None => source_file(alloc, names, b"a.v", text),
    }
}

// The tokens of files, behind the preprocessor.
#[tactic(auto, using(ls_text::proofs::Growth::grows_on))]
fn tokens_of(alloc: Global, names: &mut Names, files: &[SourceFile]) -> Result<Vec<Token>, Refusal>
    requires files { length files.now ≤ 256 }
    requires texts { All (λ f. length f.text ≤ 4194304) files.now }
    ensures known { IfErr result (CanShow (length names.new)) }
    ensures grows { Grows names.old names.new }
{
    match preprocess(alloc, names, files) {
        Ok(pieces) => lex(alloc, names, files, &pieces),
        Err(refusal) => Err(refusal),
    }
}

// The line that shows a refusal, without the newline at its end.
fn shown(
    alloc: Global,
    names: &Names,
    files: &[SourceFile],
    refusal: Refusal,
) -> Result<Vec<u8>, NoMemory>
    requires names { CanShow (length names.now) refusal }
    requires files { All (λ f. f.name.0 < length names.now) files.now }
{
    match refusal {
        Refusal::NoMemory => Err(NoMemory),
        Refusal::Fault(fault) => {
            let mut line = fault_line(alloc, names, files, 0, &fault)?;
            line.pop();
            Ok(line)
        }
    }
}

/// The line that shows the first fault of the preprocessor; an empty one where there is none.
#[tactic(auto, using(ls_text::proofs::Growth::grown_id))]
pub fn preprocessed(alloc: Global, text: &[u8]) -> Result<Vec<u8>, NoMemory> {
    let mut names = Names::new(alloc);
    let first = first_file(alloc, &mut names, text)?;
    let last = last_file(alloc, &mut names, text)?;
    let files = [first, last];
    match preprocess(alloc, &mut names, &files) {
        Ok(_) => Ok(Vec::new(alloc)),
        Err(refusal) => shown(alloc, &names, &files, refusal),
    }
}

/// The line that shows the first fault of the preprocessor or the lexer; an empty one where there is none.
#[tactic(auto, using(ls_text::proofs::Growth::grown_id))]
pub fn lexed(alloc: Global, text: &[u8]) -> Result<Vec<u8>, NoMemory> {
    let mut names = Names::new(alloc);
    let first = first_file(alloc, &mut names, text)?;
    let last = last_file(alloc, &mut names, text)?;
    let files = [first, last];
    match tokens_of(alloc, &mut names, &files) {
        Ok(_) => Ok(Vec::new(alloc)),
        Err(refusal) => shown(alloc, &names, &files, refusal),
    }
}

// The bytes of a piece.
fn bytes_of(files: &[SourceFile], piece: Piece) -> &[u8] {
    match files.get(piece.file as usize) {
        Some(file) => {
            let up_to = front(file.text.bytes(), piece.end as usize);
            behind(up_to, piece.start as usize)
        }
        None => b"",
    }
}

/// The pieces of a row, each behind a bar; nothing where it is refused.
pub fn pieces(alloc: Global, text: &[u8]) -> Result<Vec<u8>, NoMemory> {
    let mut names = Names::new(alloc);
    let mut out = Vec::new(alloc);
    let first = first_file(alloc, &mut names, text)?;
    let last = last_file(alloc, &mut names, text)?;
    let files = [first, last];
    match preprocess(alloc, &mut names, &files) {
        Ok(pieces) => {
            for piece in &pieces {
                out.push(b'|')?;
                out.extend_from_slice(bytes_of(&files, *piece))?;
            }
        }
        Err(Refusal::NoMemory) => return Err(NoMemory),
        Err(Refusal::Fault(_fault)) => {}
    }
    Ok(out)
}

// `LINE:COL`
fn push_place(out: &mut Vec<u8>, place: Place) -> Result<(), NoMemory> {
    push_decimal(out, u64::from(place.line))?;
    out.push(b':')?;
    push_decimal(out, u64::from(place.col))
}

fn push_span(out: &mut Vec<u8>, piece: Piece) -> Result<(), NoMemory> {
    push_decimal(out, u64::from(piece.file))?;
    out.push(b' ')?;
    push_decimal(out, u64::from(piece.start))?;
    out.push(b' ')?;
    push_decimal(out, u64::from(piece.end))?;
    out.push(b' ')?;
    push_decimal(out, u64::from(piece.at.file))?;
    out.push(b':')?;
    push_place(out, piece.at)?;
    if piece.fixed {
        out.extend_from_slice(b" fixed")?;
    }
    Ok(())
}

/// Where the pieces of a row are, with bars between them; nothing where it is refused.
pub fn spans(alloc: Global, text: &[u8]) -> Result<Vec<u8>, NoMemory> {
    let mut names = Names::new(alloc);
    let mut out = Vec::new(alloc);
    let first = first_file(alloc, &mut names, text)?;
    let last = last_file(alloc, &mut names, text)?;
    match preprocess(alloc, &mut names, &[first, last]) {
        Ok(pieces) => {
            for piece in &pieces {
                if !out.is_empty() {
                    out.push(b'|')?;
                }
                push_span(&mut out, *piece)?;
            }
        }
        Err(Refusal::NoMemory) => return Err(NoMemory),
        Err(Refusal::Fault(_fault)) => {}
    }
    Ok(out)
}

// The tokens of a row; none where it is refused.
fn tokens(alloc: Global, text: &[u8]) -> Result<Vec<Token>, NoMemory> {
    let mut names = Names::new(alloc);
    let first = first_file(alloc, &mut names, text)?;
    let last = last_file(alloc, &mut names, text)?;
    match tokens_of(alloc, &mut names, &[first, last]) {
        Ok(tokens) => Ok(tokens),
        Err(Refusal::NoMemory) => Err(NoMemory),
        Err(Refusal::Fault(_fault)) => Ok(Vec::new(alloc)),
    }
}

/// The kinds of a row's tokens.
pub fn kinds(alloc: Global, text: &[u8]) -> Result<Vec<u8>, NoMemory> {
    let mut out = Vec::new(alloc);
    for token in &tokens(alloc, text)? {
        if !out.is_empty() {
            out.push(b' ')?;
        }
        let kind = format!(in alloc; "{:?}", token.kind)?;
        out.extend_from_slice(kind.as_bytes())?;
    }
    Ok(out)
}

/// The first token as a number: its kind, its size, its sign, its value, and the bits that wildcard digits cover.
pub fn literal(alloc: Global, text: &[u8]) -> Result<Vec<u8>, NoMemory> {
    let mut out = Vec::new(alloc);
    if let [token, _end] = tokens(alloc, text)?.as_slice() {
        let sign = if token.literal.signed {
            "signed"
        } else {
            "unsigned"
        };
        let l = token.literal;
        let shown = format!(in alloc; "{:?} {} {sign} {} {}", token.kind, l.size, l.value, l.mask)?;
        out.extend_from_slice(shown.as_bytes())?;
    }
    Ok(out)
}

/// The places of a row's tokens, the end among them.
pub fn places_of_tokens(alloc: Global, text: &[u8]) -> Result<Vec<u8>, NoMemory> {
    let mut out = Vec::new(alloc);
    for token in &tokens(alloc, text)? {
        if !out.is_empty() {
            out.push(b' ')?;
        }
        push_place(&mut out, token.at)?;
    }
    Ok(out)
}

/// How many tokens a row has, the end among them, and where the end stands.
pub fn counts(alloc: Global, text: &[u8]) -> Result<Vec<u8>, NoMemory> {
    let mut out = Vec::new(alloc);
    let all = tokens(alloc, text)?;
    push_decimal(&mut out, all.len() as u64)?;
    out.push(b' ')?;
    if let Some(end) = all.last() {
        push_place(&mut out, end.at)?;
    }
    Ok(out)
}
