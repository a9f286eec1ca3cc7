// Heads of generate loops.
use crate::expression::Expr;
use crate::nodes::Child;
use crate::parameter::Parameter;

/// The start, the condition and the step of a generate loop.
#[derive(Drop)]
pub struct Loop {
    pub start: Parameter,
    pub condition: Child<Expr>,
    pub step: Parameter,
}
