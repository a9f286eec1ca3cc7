// What a search against the edges does next.

/// A group that is to join a component: a new one where none is given.
#[derive(Clone, Copy, Debug, PartialEq, Eq)]
pub struct Joining {
    pub group: usize,
    pub component: Option<usize>,
}
