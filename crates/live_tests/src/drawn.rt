// A ticket of a plain replay.
use book_history::who::Who;

/// The version, the two cycles and the start of a ticket, who asked for it, and whether it is still out.
#[derive(Clone, Copy, Debug, PartialEq, Eq)]
pub struct Drawn {
    pub version: u64,
    pub a: u64,
    pub b: u64,
    pub start: u8,
    pub by: Who,
    pub out: bool,
}
