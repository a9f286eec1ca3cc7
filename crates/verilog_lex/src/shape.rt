// What a stretch of text is.
use crate::Kind;
use crate::number_part::Based;

/// What a stretch of text is (IEEE 1364-2005, clauses 3.1 to 3.8).
#[derive(Clone, Copy)]
pub enum Shape<'a> {
    /// White space, or an attribute.
    Blank,
    /// A word, reserved or not.
    Word(&'a [u8]),
    /// A plain decimal.
    Decimal(&'a [u8]),
    Based(Based<'a>),
    /// An operator or another sign.
    Mark(Kind, &'a [u8]),
    /// A byte that begins no token.
    Stray,
}
