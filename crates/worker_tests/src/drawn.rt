// A ticket of a plain replay.
use book_history::who::Who;

/// The version, the link and the start of a ticket, who asked for it, and whether it is still out.
#[derive(Clone, Copy, Debug, PartialEq, Eq)]
pub struct Drawn {
    pub version: u64,
    pub link: usize,
    pub start: u64,
    pub by: Who,
    pub out: bool,
}
