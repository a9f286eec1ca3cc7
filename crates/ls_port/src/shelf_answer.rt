// What a shelf answered to a read.
use ls_text::TextBytes;

/// What a shelf answered to a read, want of memory apart.
#[derive(Debug, Drop)]
pub enum ShelfAnswer {
    /// The name that was asked for, and the bytes that were given.
    Given(TextBytes, TextBytes),
    /// The name that was asked for where the read failed.
    Failed(TextBytes),
}
