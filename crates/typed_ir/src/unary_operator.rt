// Operators of one operand (IEEE Std 1364-2005, 5.1).

/// An operator with one operand. What `~&` and `~^` give is the complement of a reduction.
#[derive(Clone, Copy, Debug, PartialEq, Eq)]
pub enum UnaryOperator {
    /// `~`
    Inverse,
    /// `-`
    Negative,
    /// The reduction `&`.
    AllOnes,
    /// The reduction `|`.
    AnyOne,
    /// `!`, and the reduction `~|`.
    NoOne,
    /// The reduction `^`.
    OddOnes,
}
