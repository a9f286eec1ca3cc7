// The rule of the turn. The type is for the proofs alone.
use crate::sight::Sight;
use book_history::historied::Historied;
use crossbeam_queue::protocol::Protocol;
use std::marker::PhantomData;

/// The rule of the turn.
pub struct OneBook<B> {
    of: PhantomData<B>,
}

impl<B: Historied> Protocol<Box<B>, Sight<B>> for OneBook<B> {
    ghost use Rattle.book_turn.specs.Known.{opening};
    ghost use Rattle.book_turn.specs.Rule.{Ruled};

    ghost holds = { Ruled (λ b. B.history b.value) };

    ghost first = { opening };
}
