// Conditions that operations break.
use crate::qualified_name::QualifiedName;

/// The code of a condition that an operation breaks, and the register that breaks it.
#[derive(Clone, Copy, Debug, PartialEq, Eq)]
pub struct Breach {
    pub code: u8,
    pub shown: QualifiedName,
}
