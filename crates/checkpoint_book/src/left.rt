// What is left to be verified.

/// `SomeOpen`: a link is open. `SomeOut`: none is open, but not all are joined. `AllJoined`: nothing is left.
#[derive(Clone, Copy, Debug, PartialEq, Eq)]
pub enum Left {
    SomeOpen,
    SomeOut,
    AllJoined,
}
