// A piece of a source file.
use crate::Place;

/// A stretch of a file that is read for tokens; no token crosses its end.
#[derive(Clone, Copy, Debug, PartialEq, Eq)]
pub struct Piece {
    /// The number of the file.
    pub file: u16,
    /// The offset of its first byte.
    pub start: u32,
    /// The offset after its last byte.
    pub end: u32,
    /// The place of its first byte, or that of the use of a macro.
    pub at: Place,
    /// Whether all its tokens have that one place, as those of a macro's body.
    pub fixed: bool,
}
