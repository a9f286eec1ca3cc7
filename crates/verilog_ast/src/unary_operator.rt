// Operators before their operand.

/// An operator before its operand.
#[derive(Clone, Copy, Debug, PartialEq, Eq)]
pub enum UnaryOperator {
    Plus,
    Minus,
    /// `!`
    LogicalNot,
    /// `~`
    Invert,
    ReduceAnd,
    ReduceNand,
    ReduceOr,
    ReduceNor,
    ReduceXor,
    /// `~^` or `^~`
    ReduceXnor,
}
