// Why a ticket is no longer current.

/// The first of the three that differs: the book's version; a link with the ticket's two cycles; the state of the mark
/// at the first of them.
#[derive(Clone, Copy, Debug, PartialEq, Eq)]
pub enum Why {
    Version,
    Link,
    Start,
}
