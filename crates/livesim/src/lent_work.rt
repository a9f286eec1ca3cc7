// Work of a closure that is lent.
ghost use Rattle.std.specs.Prelude.{◌≡◌};
ghost use Rattle.livesim.specs.Lent.{HasCalled, IsLendable};

use book_turn::{SessionPass, Turn};
use checkpoint_book::book::Book;
use cycle_eval::Design;
use std::sync::Wait;
use std::thread::Threads;
use worker_scope::SessionWork;

/// The session's work as a closure that stays its owner's.
#[derive(Drop)]
pub(crate) struct LentWork<'a, F> {
    pub(crate) work: &'a mut F,
}

impl<'a, F: FnMut(&Turn<Book<Design>>, &mut SessionPass<Book<Design>>) -> A, A> SessionWork<Design>
    for LentWork<'a, F> {
    type Answer = (&'a mut F, A);

    ghost ready = { λ l v. IsLendable (F.pre l.work.now) (F.step l.work.now) v };

    ghost does = { λ l v w r. (r.0.ghost_name ≡ l.work.ghost_name) × HasCalled (F.step l.work.now) v w r.1 r.0.now };

    fn work<R: Threads + Wait + Sync>(
        self,
        _rt: &R,
        turn: &Turn<Book<Design>>,
        pass: &mut SessionPass<Book<Design>>,
    ) -> (&'a mut F, A) {
        let LentWork { work } = self;
        let answer = work(turn, pass);
        (work, answer)
    }
}
