// A file that a block loads.
use ls_text::NameId;

/// The name of a file that a block loads, and the line where it does.
#[derive(Clone, Copy, Debug, PartialEq, Eq)]
pub struct LoadLine {
    pub line: u64,
    pub name: NameId,
}
