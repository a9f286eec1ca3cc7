// A part of a macro's body.
use crate::stretch::Stretch;
use ls_text::NameId;

/// A part of a macro's body.
#[derive(Clone, Copy, Debug)]
pub enum Part {
    /// Bytes that hold tokens.
    Text(Stretch),
    /// The use of a macro: its word, by its number in the table of words.
    Use(NameId),
    /// A comment that isn't closed.
    Open,
}
