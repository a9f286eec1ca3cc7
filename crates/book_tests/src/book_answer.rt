// What a step of a case answers.
use checkpoint_book::installed::Installed;
use checkpoint_book::shown::Shown;

/// The book's answer.
#[derive(Clone, Copy, Debug, PartialEq, Eq)]
pub enum BookAnswer {
    /// The call has no answer.
    Done,
    /// The cycle that a reload chose.
    Chosen(u64),
    /// A ticket: its number, its two cycles and its start.
    Drawn(u64, u64, u64, u64),
    /// No ticket for a worker: whether the workers' room is full, and whether the book is closed.
    Nothing(bool, bool),
    /// No ticket for the session, since all links are joined.
    AllJoined,
    /// What an install answers.
    HandedIn(Installed),
    /// What a show answers.
    Told(Shown),
    /// What a reader answers.
    Is(u64),
}
