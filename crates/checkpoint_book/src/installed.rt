// What an install answers.
ghost use Rattle.std.specs.Prelude.{◌≡◌};
ghost use Rattle.checkpoint_book.specs.Answers.{is_joined_answer};

use crate::why::Why;

/// `Stale` has the number of the ticket's version and of the book's.
#[derive(Clone, Copy, Debug, PartialEq, Eq)]
pub enum Installed {
    Joined,
    Stale {
        ticket_version: u64,
        book_version: u64,
        why: Why,
    },
}

impl Installed {
    /// Whether the ticket was current.
    pub fn is_joined(&self) -> bool
        ensures { result ≡ is_joined_answer self.now }
    {
        match self {
            Installed::Joined => true,
            Installed::Stale { .. } => false,
        }
    }
}
