// What the session does while workers run.
ghost use Rattle.std.specs.Prelude.{◌≡◌, true, false};
ghost use Rattle.book_turn.specs.Known.{Known};
ghost use Rattle.book_turn.specs.Passes.{IsOf, known};
ghost use Rattle.book_turn.specs.Turns.{GoesOn};
ghost use Rattle.segment_verify.specs.Workers.{is_closed, IsFree};

use book_turn::{SessionPass, Turn};
use checkpoint_book::book::Book;
use machine::Machine;
use std::sync::Wait;
use std::thread::Threads;

/// What the session does while workers run beside it.
pub trait SessionWork<M: Machine>: Drop {
    type Answer;

    /// What it asks of the pass.
    ghost ready: { Self → Known M M.Row M.Ops → Type 0 };

    /// What it makes of the pass, with this answer.
    ghost does: { Self → Known M M.Row M.Ops → Known M M.Row M.Ops → Self.Answer → Type 0 };

    /// Does it in turns of the session's own. The pass comes back free, and the session hasn't closed the book.
    fn work<R: Threads + Wait + Sync>(
        self,
        rt: &R,
        turn: &Turn<Book<M>>,
        pass: &mut SessionPass<Book<M>>,
    ) -> Self::Answer
        requires turn { IsOf turn.now pass.old true }
        requires free { IsFree (known pass.old) }
        requires open { is_closed (known pass.old).own ≡ false }
        requires ready { ready self (known pass.old) }
        ensures turn { IsOf turn.now pass.new true }
        ensures free { IsFree (known pass.new) }
        ensures open { is_closed (known pass.new).own ≡ false }
        ensures goes { GoesOn (known pass.old) (known pass.new) }
        ensures does { does self (known pass.old) (known pass.new) result };
}
