// A macro.

/// A macro: which definition it is, counted from 0, and where its body stands in the list of all parts.
#[derive(Clone, Copy, Debug)]
pub struct Macro {
    pub number: usize,
    pub first: usize,
    pub last: usize,
}
