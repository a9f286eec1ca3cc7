// Connections by name.
use crate::expression::Expr;
use crate::identifier::Identifier;
use crate::nodes::Child;
use ls_text::Place;

/// `.name(value)`, at its dot
#[derive(Drop)]
pub struct NamedConnection {
    pub at: Place,
    pub name: Identifier,
    pub value: Option<Child<Expr>>,
}
