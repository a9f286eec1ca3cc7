// Names as they stand in a text.
use ls_text::{NameId, Place};

/// A name where it stands in a text: a part of a target, a read of a signal, or a name that is declared. `order` counts the
/// mentions of an item in the order of its text.
#[derive(Clone, Copy, Debug, PartialEq, Eq)]
pub struct Mention {
    pub name: NameId,
    pub at: Place,
    pub order: u32,
}
