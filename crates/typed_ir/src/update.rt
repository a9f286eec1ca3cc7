// Writes, of which contracts alone speak: what an assignment writes, and what takes effect later.
use crate::span::Span;

/// Bits that are to be written, with a value whose lowest bits they take.
#[derive(Clone, Copy, Debug, PartialEq, Eq)]
pub struct Update {
    pub span: Span,
    pub value: u128,
}
