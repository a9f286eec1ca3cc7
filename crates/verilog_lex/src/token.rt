// A token of a text.
use crate::{Kind, Literal};
use ls_text::{NameId, Place};

/// A token: its kind, its place, the name that a fault shows for it, and the literal of a Number or Wild.
#[derive(Clone, Copy, Debug, PartialEq, Eq)]
pub struct Token {
    pub kind: Kind,
    pub at: Place,
    /// The text of a word, a reserved word or an operator; `number` for a Number or Wild; `-` for the end.
    pub text: NameId,
    pub literal: Literal,
}
