// The tokens of pieces.
ghost use Rattle.std.specs.Prelude.{◌≡◌, ◌<◌, ◌≤◌, ◌++◌, ◌∷◌, [], List, Result, length, map, codes, IfOk, IfErr, IfSome};
ghost use Rattle.std.specs.Option.{option_map};
ghost use Rattle.std.specs.List.{All};
ghost use Rattle.ls_text.specs.Texts.{Grows};
ghost use Rattle.ls_text.specs.Readings.{TextFault, Gives, CanShow};
ghost use Rattle.verilog_lex.specs.Ends.{EndsOnce};
ghost use Rattle.verilog_lex.specs.Numbers.{decimal_literal};
ghost use Rattle.verilog_lex.specs.Readings.{Reads};
ghost use Rattle.verilog_lex.specs.Tokens.{Said, plain, number_at, first_part, token_at, taken, tokens_from, lexeme_tokens, end_place, tokens};
ghost use Rattle.verilog_lex.specs.Views.{said, IsNamed, lexeme, left, part_view, Turns};

use crate::cursor::Cursor;
use crate::keyword::word_kind;
use crate::lexeme::Lexeme;
use crate::number::{based_literal, plain_literal, sized_literal};
use crate::number_part::Based;
use crate::read::next_lexeme;
use crate::shape::Shape;
use crate::{Kind, Literal, Token};
use ls_text::{
    Names, NoMemory, Piece, Place, Refusal, SourceFile, file_start, place_after, text_fault,
    text_of,
};
use std::alloc::Global;

const NO_LITERAL: Literal = Literal {
    size: 0,
    signed: false,
    value: 0,
    mask: 0,
};

// A token that is no number.
#[tactic(auto, using(crate::proofs::Growth::interned_text))]
fn plain(names: &mut Names, kind: Kind, at: Place, text: &[u8]) -> Result<Token, NoMemory>
    ensures token { IfOk result (λ t. said names.new t ≡ plain kind at text.now) }
    ensures named { IfOk result (IsNamed (length names.new)) }
    ensures grows { Grows names.old names.new }
{
    let text = names.intern(text)?;
    Ok(Token {
        kind,
        at,
        text,
        literal: NO_LITERAL,
    })
}

// A number, where its digits stand for one.
fn number(
    alloc: Global,
    names: &mut Names,
    at: Place,
    literal: Option<(Kind, Literal)>,
) -> Result<Token, Refusal>
    ensures token { Gives names.new (said names.new) result (number_at at literal) }
    ensures named { IfOk result (IsNamed (length names.new)) }
    ensures grows { Grows names.old names.new }
{
    match literal {
        None => Err(Refusal::Fault(text_fault(alloc, 14, at))),
        Some((kind, literal)) => {
            let text = names.intern(b"number")?;
            Ok(Token {
                kind,
                at,
                text,
                literal,
            })
        }
    }
}

// The literal of a plain decimal, before a based part or something else.
fn decimal_literal(digits: &[u8], part: Option<Based<'_>>) -> Option<(Kind, Literal)>
    ensures { result ≡ decimal_literal digits.now (option_map part_view part.entry) }
{
    match part {
        Some(part) => sized_literal(digits, part),
        None => plain_literal(digits),
    }
}

// The token of a lexeme, before a based part or something else.
fn token(
    alloc: Global,
    names: &mut Names,
    read: Lexeme<'_>,
    part: Option<Based<'_>>,
) -> Result<Token, Refusal>
    ensures token { Gives names.new (said names.new) result
        (token_at (lexeme read.entry).at (lexeme read.entry).form (option_map part_view part.entry)) }
    ensures named { IfOk result (IsNamed (length names.new)) }
    ensures grows { Grows names.old names.new }
{
    match read.shape {
        Shape::Blank => Err(Refusal::Fault(text_fault(alloc, 13, read.at))),
        Shape::Word(text) => Ok(plain(names, word_kind(text), read.at, text)?),
        Shape::Decimal(digits) => number(alloc, names, read.at, decimal_literal(digits, part)),
        Shape::Based(own) => number(alloc, names, read.at, based_literal(0, own)),
        Shape::Mark(kind, text) => Ok(plain(names, kind, read.at, text)?),
        Shape::Stray => Err(Refusal::Fault(text_fault(alloc, 13, read.at))),
    }
}

// The based part that comes next, and what is left behind it.
#[tactic(auto, unfolding(crate::specs::Tokens::lexeme_tokens))]
fn next_part(cursor: Cursor<'_>) -> Option<(Based<'_>, Cursor<'_>)>
    ensures part { option_map (λ r. part_view r.0) result ≡ first_part (left cursor.entry) }
    ensures behind { IfSome result (λ r. tokens_from 1 (left cursor.entry) ≡ lexeme_tokens (left r.1)) }
    ensures shorter { IfSome result (λ r. length (left r.1) < length (left cursor.entry)) }
{
    let (read, behind) = next_lexeme(cursor)?;
    match read.shape {
        Shape::Based(part) => Some((part, behind)),
        _ => None,
    }
}

// The based part that belongs to a lexeme, and what is left behind both.
#[tactic(auto, unfolding(crate::specs::Tokens::lexeme_tokens))]
fn part_behind<'a>(read: Lexeme<'a>, behind: Cursor<'a>) -> (Option<Based<'a>>, Cursor<'a>)
    ensures part { token_at (lexeme read.entry).at (lexeme read.entry).form (option_map part_view result.0)
        ≡ token_at (lexeme read.entry).at (lexeme read.entry).form (first_part (left behind.entry)) }
    ensures behind { tokens_from (taken (lexeme read.entry).form (first_part (left behind.entry))) (left behind.entry)
        ≡ lexeme_tokens (left result.1) }
    ensures within { length (left result.1) ≤ length (left behind.entry) }
{
    match read.shape {
        Shape::Decimal(_) => match next_part(behind) {
            Some((part, after)) => (Some(part), after),
            None => (None, behind),
        },
        _ => (None, behind),
    }
}

// The next token, and what is left behind it.
#[tactic(auto, unfolding(crate::specs::Tokens::lexeme_tokens))]
fn next_token<'a>(
    alloc: Global,
    names: &mut Names,
    cursor: Cursor<'a>,
) -> Result<Option<(Token, Cursor<'a>)>, Refusal>
    ensures turn { Turns names.new result (lexeme_tokens (left cursor.entry)) }
    ensures named { IfOk result (λ o. IfSome o (λ x. IsNamed (length names.new) x.0)) }
    ensures grows { Grows names.old names.new }
    ensures shorter { IfOk result (λ o. IfSome o (λ x. length (left x.1) < length (left cursor.entry))) }
{
    let Some((read, behind)) = next_lexeme(cursor) else {
        return Ok(None);
    };
    let (part, left) = part_behind(read, behind);
    let token = token(alloc, names, read, part)?;
    Ok(Some((token, left)))
}

// The tokens of all that is left.
fn tokens_left(alloc: Global, names: &mut Names, cursor: Cursor<'_>) -> Result<Vec<Token>, Refusal>
    ensures tokens { Gives names.new (λ ts. map (said names.new) ts.items) result (lexeme_tokens (left cursor.entry)) }
    ensures named { IfOk result (λ ts. All (IsNamed (length names.new)) ts.items) }
    ensures grows { Grows names.old names.new }
{
    let mut tokens = Vec::new(alloc);
    let mut left = cursor;
    while let Some((token, behind)) = next_token(alloc, names, left)? {
        tokens.push(token)?;
        left = behind;
    }
    Ok(tokens)
}

// The place after the last byte of the last file.
fn end_place(files: &[SourceFile]) -> Place
    requires { length files.now ≤ 256 }
    ensures { result ≡ end_place files.now }
{
    let last = if files.is_empty() { 0 } else { files.len() - 1 };
    place_after(file_start(last as u16), text_of(files, last as u16))
}

// The tokens, and the end behind them.
fn with_end(
    names: &mut Names,
    files: &[SourceFile],
    mut tokens: Vec<Token>,
) -> Result<Vec<Token>, NoMemory>
    requires files { length files.now ≤ 256 }
    requires named { All (IsNamed (length names.old)) tokens.items }
    ensures tokens { IfOk result (λ ts. map (said names.new) ts.items
        ≡ map (said names.old) tokens.items ++ plain Kind.End (end_place files.now) (codes "-") ∷ []) }
    ensures named { IfOk result (λ ts. All (IsNamed (length names.new)) ts.items) }
    ensures grows { Grows names.old names.new }
{
    let end = plain(names, Kind::End, end_place(files), b"-")?;
    tokens.push(end)?;
    Ok(tokens)
}

// The tokens of the pieces of these files, or the first fault, by the walk over them.
#[tactic(auto, unfolding(crate::specs::Tokens::tokens))]
fn tokens_of(
    alloc: Global,
    names: &mut Names,
    files: &[SourceFile],
    pieces: &[Piece],
) -> Result<Vec<Token>, Refusal>
    requires { length files.now ≤ 256 }
    ensures tokens { Gives names.new (λ ts. map (said names.new) ts.items) result (tokens files.now pieces.now) }
    ensures named { IfOk result (λ ts. All (IsNamed (length names.new)) ts.items) }
    ensures ends { IfOk result (λ ts. EndsOnce ts.items) }
    ensures known { IfErr result (CanShow (length names.new)) }
    ensures grows { Grows names.old names.new }
{
    let cursor = Cursor {
        text: &[],
        at: file_start(0),
        fixed: false,
        next: 0,
        pieces,
        files,
    };
    match tokens_left(alloc, names, cursor) {
        Ok(tokens) => Ok(with_end(names, files, tokens)?),
        Err(refusal) => Err(refusal),
    }
}

/// The tokens of the pieces of at most 256 files, or the first fault: 13 for a byte that begins no token, 14 for a
/// number whose digits stand for none (IEEE 1364-2005, clauses 3.1 to 3.8).
///
/// A piece that doesn't lie within its file has no bytes.
/// A token is the longest one at its place, and none crosses the end of a piece; but a plain decimal takes the
/// based part that comes next. White space and attributes stand between tokens. The list ends with its only End,
/// which has the place after the last byte of the last file.
pub fn lex(
    alloc: Global,
    names: &mut Names,
    files: &[SourceFile],
    pieces: &[Piece],
) -> Result<Vec<Token>, Refusal>
    requires { length files.now ≤ 256 }
    ensures tokens { (read : Result (List Said) TextFault) × Reads files.now pieces.now read
        × Gives names.new (λ ts. map (said names.new) ts.items) result read }
    ensures named { IfOk result (λ ts. All (IsNamed (length names.new)) ts.items) }
    ensures ends { IfOk result (λ ts. EndsOnce ts.items) }
    ensures known { IfErr result (CanShow (length names.new)) }
    ensures grows { Grows names.old names.new }
{
    tokens_of(alloc, names, files, pieces)
}
