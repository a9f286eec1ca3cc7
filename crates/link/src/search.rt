// The search for one of many targets by its number.
use typed_ir::Span;

/// What a search has come to.
#[derive(Clone, Copy)]
pub enum Search {
    Found(Span),
    /// So many are still to be passed.
    Left(usize),
}
