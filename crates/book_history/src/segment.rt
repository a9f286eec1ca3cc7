// A link together with the mark at its end.
use crate::link::Link;

/// The link from the mark before to the mark at cycle `to`, and that mark's state.
#[derive(Drop)]
pub struct Segment<S> {
    pub link: Link,
    pub to: u64,
    pub state: S,
}
