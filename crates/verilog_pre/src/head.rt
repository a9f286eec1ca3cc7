// What stands at the head of a text.

/// What stands at the head of a text, by its bytes.
#[derive(Clone, Copy, Debug, PartialEq, Eq)]
pub enum Head {
    /// A comment of so many bytes (IEEE 1364-2005, clause 3.3).
    Comment(usize),
    /// A `/*` that nothing closes: the rest of the text.
    OpenComment,
    /// A backquote, and behind it a word of so many bytes (clause 19).
    Word(usize),
    /// So many bytes, up to the next comment or directive.
    Run(usize),
}
