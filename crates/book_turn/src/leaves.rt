// What putting the book back tells. The type is for the proofs alone.
ghost use Rattle.std.specs.Prelude.{◌≡◌, []};
ghost use Rattle.book_turn.specs.Known.{left};

use crate::sight::Sight;
use book_history::historied::Historied;
use crossbeam_queue::protocol::{Lesson, Outcome};

/// The holder puts the book back.
pub struct Leaves;

impl<B: Historied> Outcome<Box<B>, Sight<B>> for Leaves {
    ghost then = { λ v b w. w ≡ left v (B.history b.value) };
}

impl<B: Historied> Lesson<Box<B>, Sight<B>> for Leaves {
    ghost fact = { λ v items. items ≡ [] };
}
