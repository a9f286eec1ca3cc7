// An item of the work that uses of macros leave.
use crate::part::Part;

/// A part of a body that is to be read, or the end of the innermost use.
#[derive(Clone, Copy, Debug)]
pub enum Item {
    Part(Part),
    Leave,
}
