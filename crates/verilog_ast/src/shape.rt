// The sign and the range of a declaration.
use crate::range::Range;

/// The sign and the range of a declaration.
#[derive(Drop)]
pub struct Shape {
    pub signed: bool,
    pub range: Option<Range>,
}
