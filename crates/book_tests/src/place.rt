// Where a case keeps a ticket.

/// One of the two places for tickets that are out.
#[derive(Clone, Copy, Debug, PartialEq, Eq)]
pub enum Place {
    First,
    Second,
}
