// A case: a book, and the steps that it takes.
use crate::book_answer::BookAnswer;
use crate::book_step::BookStep;
use book_history::rooms::Rooms;

/// A book whose first machine adds 3, and steps with their answers.
#[derive(Clone, Copy)]
pub struct BookCase {
    pub name: &'static str,
    pub interval: u64,
    pub lookback: u64,
    pub rooms: Rooms,
    pub rows: &'static [(BookStep, BookAnswer)],
}
