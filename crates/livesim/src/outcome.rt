// How a run ended.
use book_history::history::History;
use cycle_eval::Design;

/// How a run ended, the history of its book, and how many bytes it took.
#[derive(Drop)]
pub struct Outcome {
    /// 0: all commands were accepted; 1: one was refused; 2: the words of the command line are faulty; 3: the source failed; 4: the sink failed;
    /// 5: memory ran out; 6: the script has too many bytes.
    pub status: u8,
    /// What was done to the book, up to its close; empty where the book couldn't be made, and at 2.
    pub history: History<Design>,
    pub taken: u64,
}
