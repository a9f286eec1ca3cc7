// Signs of assignments.

/// Which assignments the statements of a block have.
#[derive(Clone, Copy, Debug, PartialEq, Eq)]
pub enum Sign {
    /// `=`, in a combinational block
    Blocking,
    /// `<=`, in a clocked block
    Nonblocking,
}
