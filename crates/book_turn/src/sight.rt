// What a pass knows, as contracts see it. The type is for the proofs alone.
use book_history::historied::Historied;
use std::marker::{Model, PhantomData};

/// What a pass knows. No value of it is made.
pub struct Sight<B: Historied> {
    of: PhantomData<B>,
}

impl<B: Historied> Model for Sight<B> {
    ghost use Rattle.book_turn.specs.Known.{Known, opening};

    ghost Value = { Known B.Machine B.Row B.Ops };

    ghost view = { λ _. opening };
}
