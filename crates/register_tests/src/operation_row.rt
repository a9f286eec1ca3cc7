// Operations as rows of tests have them.

/// An operation on names of a module, each by its number.
#[derive(Clone, Copy, Debug, PartialEq, Eq)]
pub enum OperationRow {
    /// In the module, the register of the first name goes on under the second.
    Rename(u64, u64, u64),
    /// In the module, a new register of the name begins at the value.
    Create(u64, u64, u64),
    /// In the module, the register of the name is dropped.
    Delete(u64, u64),
}
