// A mark of a plain replay.
use book_history::link::Link;

/// A cycle and the register there, with the link that leads to it from the mark before; that of the first mark is joined.
#[derive(Clone, Copy, Debug, PartialEq, Eq)]
pub struct Mark {
    pub cycle: u64,
    pub acc: u8,
    pub link: Link,
}
