// A script as work that is lent to a scope of workers.
ghost use Rattle.livesim.specs.Lent.{IsLendable};

use book_turn::{SessionPass, Turn};
use checkpoint_book::book::Book;
use cycle_eval::Design;
use std::sync::Wait;
use std::thread::Threads;
use worker_scope::SessionWork;

/// What carries out a script, as a closure that stays its owner's.
#[derive(Drop)]
pub struct LentScript<'a, F> {
    pub script: &'a mut F,
}

impl<'a, F: FnMut(&Turn<Book<Design>>, &mut SessionPass<Book<Design>>) -> A, A> SessionWork<Design>
    for LentScript<'a, F> {
    type Answer = (&'a mut F, A);

    ghost ready = { λ l v. IsLendable (F.pre l.script.now) (F.step l.script.now) v };

    ghost does = { λ l v w a. Unit {0} };

    fn work<R: Threads + Wait + Sync>(
        self,
        _rt: &R,
        turn: &Turn<Book<Design>>,
        pass: &mut SessionPass<Book<Design>>,
    ) -> (&'a mut F, A) {
        let LentScript { script } = self;
        let answer = script(turn, pass);
        (script, answer)
    }
}
