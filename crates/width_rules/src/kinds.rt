// What operators before their operand do with its length.
use typed_ir::UnaryOperator;

/// What an operator before its operand does.
#[derive(Clone, Copy, Debug, PartialEq, Eq)]
pub enum UnaryKind {
    /// Nothing.
    Kept,
    /// The negative, at the operand's length.
    Negated,
    /// The complement, at the operand's length.
    Inverted,
    /// A test of the operand, which gives one bit.
    OneBit(UnaryOperator),
    /// The complement of such a test.
    Complement(UnaryOperator),
}
