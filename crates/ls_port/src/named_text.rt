// A text on a shelf.
use ls_text::TextBytes;

/// A text on a shelf, under the name by which it is asked for.
#[derive(Debug, Drop)]
pub struct NamedText {
    pub name: TextBytes,
    pub text: TextBytes,
}
