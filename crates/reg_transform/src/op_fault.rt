// Conditions that operations break.
use ls_text::NameId;
use thiserror::Error;

/// The condition that an operation breaks, and the register that breaks it.
#[derive(Clone, Copy, Debug, PartialEq, Eq, Error)]
#[error("an operation on registers breaks the condition of code {code}")]
pub struct OpFault {
    /// The place of the operation in its list, from 0.
    pub index: usize,
    /// 50: the old design hasn't the register that is renamed or deleted. 51: the new design hasn't the new name of a rename. 52: an earlier
    /// operation names the same old register, or the same new one. 53: the new design hasn't the register that is created. 54: it still has
    /// the deleted one. 55: the value doesn't fit the created register in some instance.
    pub code: u8,
    /// The module that declares the register.
    pub in_module: NameId,
    /// The register's own name.
    pub register: NameId,
}
