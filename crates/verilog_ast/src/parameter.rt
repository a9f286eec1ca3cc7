// Parameters.
use crate::expression::Expr;
use crate::identifier::Identifier;
use crate::nodes::Child;

/// A parameter and its value.
#[derive(Drop)]
pub struct Parameter {
    pub name: Identifier,
    pub value: Child<Expr>,
}
