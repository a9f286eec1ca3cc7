// What may write a net or variable.

/// What may write a net or variable.
#[derive(Clone, Copy, Debug, PartialEq, Eq)]
pub enum Writer {
    /// Nothing of the module: it is an input.
    Nothing,
    /// Continuous assignments and output connections: it is a net.
    Continuous,
    /// Clocked blocks: it is a register.
    Clocked,
    /// A combinational block: it is a variable that is no register.
    Combinational,
}
