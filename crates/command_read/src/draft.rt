// A block as far as it is read.
use crate::OpLine;
use crate::named_files::NamedFiles;
use crate::open_text::OpenText;
use ls_text::NameId;

/// A block as far as it is read.
#[derive(Drop)]
pub struct Draft {
    pub line: u64,
    pub top: Option<NameId>,
    pub clock: Option<NameId>,
    pub files: NamedFiles,
    pub ops: Vec<OpLine>,
    /// The file whose text is being read, where one is.
    pub text: Option<OpenText>,
}
