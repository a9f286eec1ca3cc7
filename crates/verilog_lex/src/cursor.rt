// What is left to read.
use ls_text::{Piece, Place, SourceFile};

/// What is left to read: the rest of a piece, and the pieces from `next` on.
#[derive(Clone, Copy)]
pub struct Cursor<'a> {
    pub text: &'a [u8],
    /// The place of the first byte of the rest.
    pub at: Place,
    /// Whether all tokens of this piece have that place.
    pub fixed: bool,
    pub next: usize,
    pub pieces: &'a [Piece],
    pub files: &'a [SourceFile],
}
