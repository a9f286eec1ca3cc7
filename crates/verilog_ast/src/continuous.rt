// Continuous assignments.
use crate::expression::Expr;
use crate::nodes::Child;
use crate::target::Lhs;

/// `target = value` of a continuous assignment
#[derive(Drop)]
pub struct Continuous {
    pub target: Lhs,
    pub value: Child<Expr>,
}
