// The turn of a book.
ghost use Rattle.std.specs.Prelude.{◌≡◌};
ghost use Rattle.crossbeam_queue.specs.Passes.{ruled_capacity};

use crate::one_book::OneBook;
use crate::sight::Sight;
use book_history::historied::Historied;
use crossbeam_queue::RuledArrayQueue;

/// A book that holders have in turn.
#[derive(Drop)]
pub struct Turn<B: Historied> {
    pub(crate) queue: RuledArrayQueue<Box<B>, Sight<B>, OneBook<B>>,
    ghost one: { ruled_capacity queue ≡ 1 },
}
