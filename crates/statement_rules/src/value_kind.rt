// What takes the value of a declaration.

/// What takes the value of a declared name.
#[derive(Clone, Copy, Debug, PartialEq, Eq)]
pub enum ValueKind {
    /// A net, which a continuous assignment drives: `wire`, or `output` without `reg`.
    Net,
    /// A variable, which has it at the beginning: `reg`.
    Variable,
    /// What the name stands for: a further name of a header, which has the declaration of the port before.
    AsDeclared,
}
