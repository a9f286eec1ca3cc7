// Where a group stands.

/// A group, and the scope that it stands in.
#[derive(Clone, Copy, Debug, PartialEq, Eq)]
pub struct Standing {
    pub group: usize,
    pub scope: usize,
}
