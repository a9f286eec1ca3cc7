// A file whose text is being read.
use ls_text::NameId;

/// A file whose text is being read: the line of its `file`, its name, and its text so far.
#[derive(Debug, Drop)]
pub struct OpenText {
    pub line: u64,
    pub name: NameId,
    pub text: Vec<u8>,
}
