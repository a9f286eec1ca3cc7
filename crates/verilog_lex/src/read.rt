// The lexemes that are left to read, one by one off the front.
ghost use Rattle.std.specs.Prelude.{◌≡◌, ◌<◌, ◌≤◌, ◌+◌, ◌++◌, ◌∷◌, [], length, drop, MatchOption};
ghost use Rattle.verilog_lex.specs.Forms.{is_gap};
ghost use Rattle.verilog_lex.specs.Lexemes.{moved_over, lexeme_here, pieces_lexemes};
ghost use Rattle.verilog_lex.specs.Views.{lexeme, left, SameRest};

use crate::cursor::Cursor;
use crate::cut::cut;
use crate::lexeme::Lexeme;
use crate::shape::Shape;
use ls_text::{Piece, Place, place_after, text_between};

// The place after some bytes; those of a fixed piece all have its place.
fn moved(fixed: bool, at: Place, bytes: &[u8]) -> Place
    ensures { result ≡ moved_over fixed at bytes.now }
{
    if fixed { at } else { place_after(at, bytes) }
}

// The first cut of the rest of the piece, and what is left behind it.
#[tactic(auto, unfolding(crate::specs::Lexemes::text_lexemes), using(crate::proofs::Lexemes::cut_off))]
fn take_cut(cursor: Cursor<'_>) -> (Lexeme<'_>, Cursor<'_>)
    requires { 0 < length cursor.text.now }
    ensures cut { left cursor.entry ≡ lexeme_here (lexeme result.0).at (lexeme result.0).form ++ left result.1 }
    ensures shorter { length result.1.text.now < length cursor.entry.text.now }
    ensures rest { SameRest cursor.entry result.1 }
{
    let (shape, n) = cut(cursor.text);
    let (bytes, text) = cursor.text.split_at(n);
    let at = moved(cursor.fixed, cursor.at, bytes);
    let lexeme = Lexeme {
        shape,
        at: cursor.at,
    };
    (lexeme, Cursor { text, at, ..cursor })
}

// Whether a cut stands between tokens.
fn is_gap(cut: Lexeme<'_>) -> bool
    ensures { result ≡ is_gap (lexeme cut.entry).form }
{
    matches!(cut.shape, Shape::Blank)
}

// The first lexeme of the rest of the piece, and what is left behind it.
#[tactic(auto, unfolding(crate::specs::Lexemes::text_lexemes))]
fn next_here(cursor: Cursor<'_>) -> Option<(Lexeme<'_>, Cursor<'_>)>
    ensures { MatchOption result (left cursor.entry ≡ pieces_lexemes cursor.entry.files.now (drop cursor.entry.next cursor.entry.pieces.now))
        (λ r. left cursor.entry ≡ lexeme r.0 ∷ left r.1) }
{
    let mut left = cursor;
    while !left.text.is_empty() {
        let (lexeme, behind) = take_cut(left);
        left = behind;
        if !is_gap(lexeme) {
            return Some((lexeme, left));
        }
    }
    None
}

// The piece with that number.
fn piece_at(cursor: Cursor<'_>, index: usize) -> Piece
    requires { index < length cursor.pieces.now }
    ensures { drop index cursor.entry.pieces.now ≡ result ∷ drop (index + 1) cursor.entry.pieces.now }
{
    cursor.pieces[index]
}

// What is left where a piece is begun.
fn begun<'a>(cursor: Cursor<'a>, index: usize) -> Cursor<'a>
    requires { index < length cursor.pieces.now }
    ensures left { left result ≡ pieces_lexemes cursor.entry.files.now (drop index cursor.entry.pieces.now) }
    ensures next { result.next ≡ index + 1 }
    ensures pieces { result.pieces.now ≡ cursor.entry.pieces.now }
    ensures files { result.files.now ≡ cursor.entry.files.now }
{
    let piece = piece_at(cursor, index);
    let text = text_between(cursor.files, piece.file, piece.start, piece.end);
    Cursor {
        text,
        at: piece.at,
        fixed: piece.fixed,
        next: index + 1,
        pieces: cursor.pieces,
        files: cursor.files,
    }
}

/// The first lexeme, and what is left behind it.
pub fn next_lexeme(cursor: Cursor<'_>) -> Option<(Lexeme<'_>, Cursor<'_>)>
    ensures { MatchOption result (left cursor.entry ≡ []) (λ r. left cursor.entry ≡ lexeme r.0 ∷ left r.1) }
{
    if let Some(found) = next_here(cursor) {
        return Some(found);
    }
    for index in cursor.next..cursor.pieces.len() {
        if let Some(found) = next_here(begun(cursor, index)) {
            return Some(found);
        }
    }
    None
}
