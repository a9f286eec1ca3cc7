// Names that are declared with a value.
use crate::value_kind::ValueKind;
use verilog_ast::{Expr, Identifier};

/// A name of a declaration, where it stands there, the value that it has there, and what takes that.
#[derive(Drop)]
pub struct DeclaredValue<'a> {
    pub kind: ValueKind,
    pub name: Identifier,
    pub value: &'a Expr,
}
