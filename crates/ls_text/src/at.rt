// Where in the texts or in the script something stands.
use crate::Place;

/// Where a fault stands.
#[derive(Clone, Copy, Debug, PartialEq, Eq)]
pub enum At {
    /// At a place in a text.
    Text(Place),
    /// At a line of the script, counted from 1.
    Line(u64),
    /// At the `edit` line of the block that is carried out.
    Edit,
}
