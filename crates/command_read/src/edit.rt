// A block that edits the texts of a design.
use crate::{FileLines, LoadLines, OpLines};
use ls_text::NameId;

/// A block from `edit` to `end`: what it names anew, and in line order the files that it gives and loads and what it does to registers.
#[derive(Debug, Drop)]
pub struct Edit {
    /// The line of `edit`, counted from 1.
    pub line: u64,
    pub top: Option<NameId>,
    pub clock: Option<NameId>,
    pub files: FileLines,
    pub loads: LoadLines,
    pub ops: OpLines,
}
