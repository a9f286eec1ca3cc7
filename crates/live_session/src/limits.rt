// What a session may use.
use book_history::rooms::Rooms;

/// The limits of a session.
#[derive(Clone, Copy, Debug, PartialEq, Eq)]
pub struct Limits {
    /// The most cycles, at most 2^40.
    pub cycles: u64,
    /// The most names that are set in the rows of its record, each counted once for a stretch of equal rows.
    pub stimulus: u64,
    /// The rooms of its history. An edit, a run and a display are charged 1 each to the session's; a settle 1 and twice the smaller of its passes
    /// and the links.
    pub rooms: Rooms,
}
