// What becomes of passes when a worker comes and goes. The type is for the proofs alone.
ghost use Rattle.book_turn.specs.Known.{after_split, worker_of, joined, spent};

use crate::sight::Sight;
use book_history::historied::Historied;
use crossbeam_queue::protocol::{Join, Split};

/// A worker's pass is split from the session's, and joined into it.
pub struct Workers;

impl<B: Historied> Split<Sight<B>> for Workers {
    ghost left = { after_split };

    ghost right = { worker_of };
}

impl<B: Historied> Join<Sight<B>> for Workers {
    ghost both = { joined };

    ghost spent = { spent };
}
