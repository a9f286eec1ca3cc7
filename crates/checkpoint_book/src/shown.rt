// What a show answers.
ghost use Rattle.std.specs.Prelude.{◌≡◌};
ghost use Rattle.checkpoint_book.specs.Answers.{shown_to};

/// `Settled` where all links are joined. `settled_to` is the cycle at the end of the leading joined links.
#[derive(Clone, Copy, Debug, PartialEq, Eq)]
pub enum Shown {
    Settled,
    Estimate { settled_to: u64 },
}

impl Shown {
    /// The cycle up to which the book is settled, or None where it all is.
    pub fn settled_to(&self) -> Option<u64>
        ensures { result ≡ shown_to self.now }
    {
        match *self {
            Shown::Settled => None,
            Shown::Estimate { settled_to } => Some(settled_to),
        }
    }
}
