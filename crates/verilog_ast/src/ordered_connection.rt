// Connections by order.
use crate::expression::Expr;
use crate::nodes::Child;
use ls_text::Place;

/// A connection by order, at its first token, or where it is empty at the token after it.
#[derive(Drop)]
pub struct OrderedConnection {
    pub at: Place,
    pub value: Option<Child<Expr>>,
}
