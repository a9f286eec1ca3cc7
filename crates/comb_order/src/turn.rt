// When a node that can be placed has its turn.

/// A node's turn: by its rank, and of one rank by its number. The least comes first.
#[derive(Clone, Copy, Debug, PartialEq, Eq, PartialOrd, Ord)]
pub struct Turn {
    pub rank: usize,
    pub node: u32,
}
