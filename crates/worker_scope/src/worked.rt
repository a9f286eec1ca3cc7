// What comes back when the session has worked beside workers.
use crate::start_refusal::StartRefusal;
use book_turn::SessionPass;
use checkpoint_book::book::Book;
use machine::Machine;

/// The session's pass, the answer of its work, how many workers were started beside it, and why not all of them were.
pub struct Worked<M: Machine, A> {
    pub pass: SessionPass<Book<M>>,
    pub answer: A,
    pub started: u16,
    pub refusal: Option<StartRefusal>,
}
