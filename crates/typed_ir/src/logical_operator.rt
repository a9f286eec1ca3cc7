// Logical operators (IEEE Std 1364-2005, 5.1.9).

/// `&&` and `||`, of values of any width.
#[derive(Clone, Copy, Debug, PartialEq, Eq)]
pub enum LogicalOperator {
    Both,
    Either,
}
