// Declared nets, and variables of ports.
use crate::expression::Expr;
use crate::identifier::Identifier;
use crate::nodes::Child;

/// A declared name, with its value or without.
#[derive(Drop)]
pub struct Variable {
    pub name: Identifier,
    pub value: Option<Child<Expr>>,
}
