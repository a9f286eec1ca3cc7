// What the first step tells. The type is for the proofs alone.
ghost use Rattle.std.specs.Prelude.{◌≡◌, []};
ghost use Rattle.book_turn.specs.Known.{begun};

use crate::sight::Sight;
use book_history::historied::Historied;
use crossbeam_queue::protocol::{Lesson, Outcome};

/// The book is put into its turn.
pub struct Begins;

impl<B: Historied> Outcome<Box<B>, Sight<B>> for Begins {
    ghost then = { λ v b w. w ≡ begun (B.history b.value) };
}

impl<B: Historied> Lesson<Box<B>, Sight<B>> for Begins {
    ghost fact = { λ v items. items ≡ [] };
}
