// Ranges of declarations.
use crate::expression::Expr;
use crate::nodes::Child;

/// `[high:low]`
#[derive(Drop)]
pub struct Range {
    pub high: Child<Expr>,
    pub low: Child<Expr>,
}
