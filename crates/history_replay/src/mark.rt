// A mark of a plain replay.
use crate::own_state::OwnState;
use book_history::link::Link;

/// A cycle and the state there, with the link that leads to it from the mark before; that of the first mark is joined. `is_checked` is whether the
/// link was found true since it or one of its two marks changed.
#[derive(Drop)]
pub struct Mark {
    pub cycle: u64,
    pub link: Link,
    pub is_checked: bool,
    pub own: OwnState,
}
