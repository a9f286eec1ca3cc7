// What a look at the turn tells. The type is for the proofs alone.
ghost use Rattle.book_turn.specs.Rule.{EachBegins};

use crate::sight::Sight;
use book_history::historied::Historied;
use crossbeam_queue::protocol::Lesson;

/// The holder compares what it had seen, and what a worker had, with what it has seen now.
pub struct Hears;

impl<B: Historied> Lesson<Box<B>, Sight<B>> for Hears {
    ghost fact = { λ v items. EachBegins v.heard v.seen };
}
