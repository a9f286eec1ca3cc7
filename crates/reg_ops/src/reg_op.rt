// An operation on registers of an edited design.
use ls_text::NameId;

/// What an edit says of registers of a module, in each of its instances.
#[derive(Clone, Copy, Debug, PartialEq, Eq)]
pub enum RegOp {
    /// The register of the one name goes on under the other.
    Rename {
        in_module: NameId,
        from: NameId,
        to: NameId,
    },
    /// A new register begins at this value, below 2^128.
    Create {
        in_module: NameId,
        reg: NameId,
        value: u128,
    },
    /// The register is dropped.
    Delete {
        in_module: NameId,
        reg: NameId,
    },
}
