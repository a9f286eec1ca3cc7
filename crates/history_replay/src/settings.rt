// The settings of a history.
use book_history::rooms::Rooms;

/// The cycles between two marks of a run, how far before the current cycle a reload begins, in cycles, and how many entries there is room for.
#[derive(Clone, Copy, Debug, PartialEq, Eq)]
pub struct Settings {
    pub interval: u64,
    pub lookback: u64,
    pub rooms: Rooms,
}
