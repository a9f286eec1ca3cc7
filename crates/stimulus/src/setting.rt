// One value that is set.
use ls_text::NameId;

/// A name with its value. In a row each name stands once.
#[derive(Clone, Copy, Debug, PartialEq, Eq)]
pub struct Setting {
    pub name: NameId,
    pub value: u128,
}
