// What comes of a run.
use book_history::entry::Entry;

/// How it ended, what it wrote, the entries of its history, and the input of each cycle that the history has on record.
#[derive(Drop)]
pub struct Ran {
    pub status: u8,
    pub lines: Vec<u8>,
    pub entries: Vec<Entry>,
    pub inputs: Vec<u8>,
}
