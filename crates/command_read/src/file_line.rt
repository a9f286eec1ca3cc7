// A file whose text stands in a block.
use ls_text::SourceFile;

/// A file that a block gives, and the line where it does.
#[derive(Debug, Drop)]
pub struct FileLine {
    pub line: u64,
    pub file: SourceFile,
}
