// A script as a closure that is lent, beside workers.
ghost use Rattle.std.specs.Prelude.{◌≡◌, true, false};
ghost use Rattle.book_turn.specs.Known.{apart_from_splits};
ghost use Rattle.book_turn.specs.Passes.{IsOf, known};
ghost use Rattle.segment_verify.specs.Workers.{is_closed, IsFree};
ghost use Rattle.live_session.specs.AtTurn.{Sight};
ghost use Rattle.livesim.specs.Lent.{IsLendable};

use crate::lent_script::LentScript;
use book_turn::{SessionPass, Turn};
use checkpoint_book::book::Book;
use cycle_eval::Design;
use ls_port::Gate;
use std::alloc::Global;
use std::sync::Wait;
use std::thread::Threads;
use worker_scope::{Worked, with_workers};

// Does nothing, but this use of a returned reference ties it, for the borrow checker, to the parameter that lent it.
fn take_back<T>(_lent: &mut T) {}

/// As `with_workers`, for a closure that stays its owner's.
pub fn beside<
    's,
    G: Gate,
    F: FnMut(&Turn<Book<Design>>, &mut SessionPass<Book<Design>>) -> A,
    A,
    R: Threads + Wait + Sync,
>(
    rt: &'s R,
    alloc: Global,
    turn: &'s Turn<Book<Design>>,
    pass: SessionPass<Book<Design>>,
    workers: u16,
    gate: &'s G,
    script: &mut F,
) -> Worked<Design, A>
    requires turn { IsOf turn.now pass true }
    requires free { IsFree (known pass) }
    requires open { is_closed (known pass).own ≡ false }
    requires ready { (u : Sight) → apart_from_splits u ≡ apart_from_splits (known pass) → IsLendable (F.pre script.old) (F.step script.old) u }
    ensures turn { IsOf turn.now result.pass true }
    ensures free { IsFree (known result.pass) }
{
    let Worked {
        pass,
        answer: (lent, answer),
        started,
        refusal,
    } = with_workers(rt, alloc, turn, pass, workers, gate, LentScript { script });
    take_back(lent);
    Worked {
        pass,
        answer,
        started,
        refusal,
    }
}
