// What is due where an expression stands.

/// Whether an expression may have nets and variables in it.
#[derive(Clone, Copy, Debug, PartialEq, Eq)]
pub enum Due {
    /// It may.
    AnyValue,
    /// It may not, as an index left of `assign`, a bound, a width or a count: 25 NotConstant there.
    ConstantOnly,
}
