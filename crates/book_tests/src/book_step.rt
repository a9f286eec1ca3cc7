// A step of a case.
use crate::place::Place;
use book_history::who::Who;

/// A call on the book, or several that belong together.
#[derive(Clone, Copy, Debug, PartialEq, Eq)]
pub enum BookStep {
    /// So many cycles over rows of 0.
    Run(u64),
    /// Three cycles over rows of 1 and two over rows of 10, which are two stored runs.
    RunChanging,
    /// The next version, whose machine adds so much.
    Reload(u64),
    /// A claim by this asker. Its ticket takes this place.
    Take(Who, Place),
    /// The ticket in this place is verified and installed.
    HandIn(Place),
    /// The ticket in this place is given up.
    GiveUp(Place),
    Show,
    Close,
    /// The current cycle.
    Cycle,
    /// How many marks there are.
    Marks,
    /// How many links there are.
    Links,
    /// The current version's number.
    Version,
    /// How many entries more the session has room for.
    Room,
    /// The last mark's state.
    Last,
}
