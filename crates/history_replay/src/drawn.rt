// A ticket of a plain replay.
use crate::own_state::OwnState;
use book_history::who::Who;

/// The number of the version, the two cycles and the start of a ticket, who asked for it, and whether it is still out.
#[derive(Drop)]
pub struct Drawn {
    pub version: u64,
    pub a: u64,
    pub b: u64,
    pub start: OwnState,
    pub by: Who,
    pub is_out: bool,
}
