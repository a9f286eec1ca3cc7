// By what a register is found.
use crate::qualified_name::QualifiedName;

/// A register of an instance: the number of the path of the instance, and the register's name.
#[derive(Clone, Copy, Debug, PartialEq, Eq, Hash)]
pub struct RegisterKey {
    pub instance: usize,
    pub called: QualifiedName,
}
