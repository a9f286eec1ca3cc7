// Which word of a signal an assignment writes.

/// Which word of a signal an assignment writes.
#[derive(Clone, Copy, Debug, PartialEq, Eq)]
pub enum Home {
    /// The signal's own: a blocking assignment.
    Now,
    /// That of its next value: a nonblocking one.
    Later,
}
