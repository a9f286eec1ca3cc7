// The fields of a book with a version.
use crate::left::Left;
use book_history::segment::Segment;
use book_history::version::Version;
use std::alloc::Global;
use std::sync::Arc;

/// The current version, the state of mark 0, the links with the marks at their ends, and what is left of the links.
#[derive(Drop)]
pub struct Opened<D, S> {
    pub(crate) version: Arc<Version<D>, Global>,
    pub(crate) first: S,
    pub(crate) segs: Vec<Segment<S>>,
    pub(crate) left: Left,
}
