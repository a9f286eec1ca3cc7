// What is left of a run.
use crate::played::Played;
use book_history::history::History;
use cycle_eval::Design;
use ls_text::NoMemory;

/// What came of a script, the history of its book, and how many workers were started.
#[derive(Drop)]
pub struct Ran {
    pub played: Result<Played, NoMemory>,
    pub history: History<Design>,
    pub started: u16,
}
