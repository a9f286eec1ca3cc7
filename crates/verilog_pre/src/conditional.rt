// A conditional.
use crate::branch::Branch;
use ls_text::Place;

/// A conditional that is open (IEEE 1364-2005, clause 19.4).
#[derive(Clone, Copy, Debug)]
pub struct Conditional {
    /// The place of its opening.
    pub at: Place,
    /// Whether it was opened by `ifndef`.
    pub negated: bool,
    pub branch: Branch,
    /// Whether it has had its `else`.
    pub closing: bool,
}
