// The macros that are known.
use crate::macro_body::Macro;
use crate::part::Part;
use ls_text::Names;

/// The macros that are known, and the parts of all bodies.
#[derive(Drop)]
pub struct Macros {
    /// The words that were looked up or defined so far.
    pub words: Names,
    /// What each word names; those at the end that aren't listed name nothing.
    pub known: Vec<Option<Macro>>,
    pub parts: Vec<Part>,
    /// For each definition, where it last stood in the nest of open uses.
    pub places: Vec<usize>,
}
