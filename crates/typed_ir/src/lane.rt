// Runs of bits, and which bits of a value go there.
use crate::span::Span;

/// A part of what an assignment drives: the bits of the value from bit `shift` on go to the span.
#[derive(Clone, Copy, Debug, PartialEq, Eq)]
pub struct Lane {
    pub shift: u8,
    pub span: Span,
}
