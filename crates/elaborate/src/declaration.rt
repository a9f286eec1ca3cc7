// Declarations of names.
use crate::declaration_kind::DeclarationKind;
use gen_unroll::BitRange;
use ls_text::Place;

/// What a name is declared as, with its range where it has one, and its sign; and where.
#[derive(Clone, Copy)]
pub struct Declaration {
    pub at: Place,
    pub kind: DeclarationKind,
    pub range: Option<BitRange>,
    pub signed: bool,
}
