// Where a line ends.

/// A line among the bytes that a reader holds: where it ends, without what ends it, and where the next one begins.
#[derive(Clone, Copy, Debug, PartialEq, Eq)]
pub struct LineEnd {
    pub end: usize,
    pub next: usize,
}
