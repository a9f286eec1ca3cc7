// Variables that `reg` declares.
use crate::expression::Expr;
use crate::identifier::Identifier;
use crate::nodes::Child;
use crate::range::Range;

/// A name that `reg` declares, with its value or without.
#[derive(Drop)]
pub struct RegVariable {
    pub name: Identifier,
    pub value: Option<Child<Expr>>,
    /// An address range, which a `reg` will have where it is a memory. No text has one yet.
    pub addresses: Option<Range>,
}
