// What stands between two marks.

/// `Joined`: the current machine leads from the one mark to the other on the record. `Out` has the number of the ticket
/// that was drawn for the link.
#[derive(Clone, Copy, Debug, PartialEq, Eq)]
pub enum Link {
    Open,
    Out(u64),
    Joined,
}
