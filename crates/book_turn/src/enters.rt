// What taking the book tells. The type is for the proofs alone.
ghost use Rattle.std.specs.Prelude.{◌≡◌};
ghost use Rattle.book_turn.specs.Known.{entered};
ghost use Rattle.book_turn.specs.Rule.{Learned};

use crate::sight::Sight;
use book_history::historied::Historied;
use crossbeam_queue::protocol::Outcome;

/// The holder takes the book.
pub struct Enters;

impl<B: Historied> Outcome<Box<B>, Sight<B>> for Enters {
    ghost then = { λ v b w. (w ≡ entered v (B.history b.value)) × Learned v (B.history b.value) };
}
