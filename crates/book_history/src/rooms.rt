// How many entries a history has room for.

/// The entries of the session, and those of all workers. One place more is kept for a close.
#[derive(Clone, Copy, Debug, PartialEq, Eq)]
pub struct Rooms {
    pub session: u32,
    pub workers: u32,
}
