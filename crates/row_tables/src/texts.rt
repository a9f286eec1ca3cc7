// Texts to tokens, and names and faults to texts.
ghost use Rattle.std.specs.Prelude.{◌<◌, length, All, IfOk, IfSome};
ghost use Rattle.verilog_lex.specs.Ends.{EndsOnce};

use ls_text::{
    At, Fault, NameId, Names, NoMemory, Piece, Place, Refusal, SourceFile, TextBytes, push_decimal,
};
use std::alloc::Global;
use verilog_lex::{Token, lex};

/// A space and a text.
pub fn word(out: &mut Vec<u8>, text: &[u8]) -> Result<(), NoMemory> {
    out.push(b' ')?;
    out.extend_from_slice(text)?;
    Ok(())
}

/// A name by its number; `?` where the table hasn't it.
pub fn name(out: &mut Vec<u8>, texts: &[Vec<u8>], id: NameId) -> Result<(), NoMemory> {
    match texts.get(id.0 as usize) {
        Some(text) => word(out, text.as_slice()),
        None => word(out, b"?"),
    }
}

/// The tokens of a text that is one piece of one file; none where it is refused.
pub fn tokens_of(
    alloc: Global,
    names: &mut Names,
    text: &[u8],
) -> Result<Option<Vec<Token>>, NoMemory>
    ensures { IfOk result (λ read. IfSome read (λ tokens. EndsOnce tokens.items × All (λ t. t.text.0 < length names.new) tokens.items)) }
{
    if text.len() > 4_194_304 {
        return Ok(None);
    }
    let file = SourceFile {
        name: names.intern(b"a.v")?,
        text: TextBytes::new(Vec::from_slice(alloc, text)?),
    };
    let piece = Piece {
        file: 0,
        start: 0,
        end: text.len() as u32,
        at: Place {
            file: 0,
            line: 1,
            col: 1,
        },
        fixed: false,
    };
    match lex(alloc, names, &[file], &[piece]) {
        Ok(tokens) => Ok(Some(tokens)),
        Err(Refusal::NoMemory) => Err(NoMemory),
        Err(Refusal::Fault(_)) => Ok(None),
    }
}

/// The texts of all names, by their numbers.
pub fn texts_of(alloc: Global, names: &mut Names) -> Result<Vec<Vec<u8>>, NoMemory> {
    let last = names.intern(b" ")?;
    let mut texts = Vec::new(alloc);
    let mut id = 0;
    while id < last.0 {
        texts.push(Vec::from_slice(alloc, names.text(NameId(id)))?)?;
        id += 1;
    }
    Ok(texts)
}

/// ` CODE LINE COL`, and the names.
pub fn fault_text(out: &mut Vec<u8>, texts: &[Vec<u8>], fault: &Fault) -> Result<(), NoMemory> {
    out.push(b' ')?;
    push_decimal(out, u64::from(fault.code))?;
    if let At::Text(place) = fault.at {
        out.push(b' ')?;
        push_decimal(out, u64::from(place.line))?;
        out.push(b' ')?;
        push_decimal(out, u64::from(place.col))?;
    }
    for id in fault.names.ids() {
        name(out, texts, *id)?;
    }
    Ok(())
}
