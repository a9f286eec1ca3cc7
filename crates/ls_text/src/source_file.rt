// A file of a design.
use crate::{NameId, TextBytes};

/// A named text.
#[derive(Debug, Drop)]
pub struct SourceFile {
    pub name: NameId,
    pub text: TextBytes,
}
