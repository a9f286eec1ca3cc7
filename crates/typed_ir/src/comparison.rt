// Comparisons (IEEE Std 1364-2005, 5.1.7, 5.1.8).
use crate::signedness::Signedness;

/// A comparison of two values of one width.
#[derive(Clone, Copy, Debug, PartialEq, Eq)]
pub enum Comparison {
    Equal,
    Unequal,
    /// `<`
    Less(Signedness),
    /// `<=`
    AtMost(Signedness),
    /// `>`
    Greater(Signedness),
    /// `>=`
    AtLeast(Signedness),
}
