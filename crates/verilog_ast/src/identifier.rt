// A name where it stands in a text.
use ls_text::{NameId, Place};

/// A name, and the place where it stands.
#[derive(Clone, Copy, Debug, PartialEq, Eq)]
pub struct Identifier {
    pub at: Place,
    pub name: NameId,
}
