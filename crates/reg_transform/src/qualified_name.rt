// Names of registers.
use ls_text::NameId;

/// The name of a register: the module that declares it, and its own name.
#[derive(Clone, Copy, Debug, PartialEq, Eq, Hash)]
pub struct QualifiedName {
    pub in_module: NameId,
    pub name: NameId,
}
