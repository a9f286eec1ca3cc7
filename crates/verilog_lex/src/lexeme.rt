// A lexeme.
use crate::shape::Shape;
use ls_text::Place;

/// A stretch of text that is no white space and no attribute, and its place.
#[derive(Clone, Copy)]
pub struct Lexeme<'a> {
    pub shape: Shape<'a>,
    pub at: Place,
}
