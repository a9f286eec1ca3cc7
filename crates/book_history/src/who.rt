// Who asks a book.

/// The session, or a worker by its number.
#[derive(Clone, Copy, Debug, PartialEq, Eq)]
pub enum Who {
    Session,
    Worker(u16),
}
