// The turns of the session in a settle: each takes the book, makes one call on it, and puts it back.
ghost use Rattle.std.specs.Prelude.{◌≡◌, [], ◌∷◌, true, false, None, IfOk, IfNone};
ghost use Rattle.book_history.specs.Book.{Releases, Shows};
ghost use Rattle.book_history.specs.Owned.{owned};
ghost use Rattle.book_history.specs.Readers.{IsOpened, links_in};
ghost use Rattle.book_history.specs.declared.who.Who.TheVariants.{Session};
ghost use Rattle.book_turn.specs.Passes.{IsOf, known};
ghost use Rattle.checkpoint_book.specs.Answers.{shown_to};
ghost use Rattle.checkpoint_book.specs.Views.{shown_in};
ghost use Rattle.segment_verify.specs.Workers.{is_closed, IsFree, HasTicket, HasDrawn};
ghost use Rattle.turn_settle.specs.Seen.{book_seen, HasOwnRoom};
ghost use Rattle.turn_settle.specs.Visits.{IsVisit, HasInstalled, drawn_first, claim_of};

use book_history::who::Who;
use book_turn::{SessionPass, Turn};
use checkpoint_book::book::Book;
use checkpoint_book::shown::Shown;
use checkpoint_book::ticket::Ticket;
use checkpoint_book::verified::Verified;
use ls_text::NoMemory;
use machine::Machine;
use std::alloc::Global;
use std::sync::Wait;

/// How many links there are, which others leave.
pub fn links<M: Machine, R: Wait>(
    rt: &R,
    turn: &Turn<Book<M>>,
    pass: &mut SessionPass<Book<M>>,
) -> u32
    requires turn { IsOf turn.now pass.old true }
    requires free { IsFree (known pass.old) }
    requires own { owned (known pass.old).seen ≡ (known pass.old).own }
    ensures turn { IsOf turn.now pass.new true }
    ensures free { IsFree (known pass.new) }
    ensures visit { IsVisit M.kit M.valid [] (known pass.old) (known pass.new) }
    ensures links { result ≡ links_in (book_seen M.kit (known pass.old)) }
{
    let mut boxed = turn.enter(rt, pass);
    let book: &mut Book<M> = &mut boxed;
    let count = book.links();
    book.legal();
    turn.leave(rt, pass, boxed);
    count
}

/// Claims the first link that isn't joined, even if it is out. None tells that all are joined.
pub fn claim<M: Machine, R: Wait>(
    rt: &R,
    alloc: Global,
    turn: &Turn<Book<M>>,
    pass: &mut SessionPass<Book<M>>,
) -> Result<Option<Ticket<M>>, NoMemory>
    requires turn { IsOf turn.now pass.old true }
    requires free { IsFree (known pass.old) }
    requires own { owned (known pass.old).seen ≡ (known pass.old).own }
    requires open { is_closed (known pass.old).own ≡ false }
    requires room { HasOwnRoom (known pass.old) 2 }
    ensures turn { IsOf turn.now pass.new true }
    ensures drawn { HasDrawn M.kit Session (drawn_first result) (known pass.new) }
    ensures visit { IsVisit M.kit M.valid (claim_of (drawn_first result)) (known pass.old) (known pass.new) }
    ensures settled { IfOk result (λ r. IfNone r (shown_in (book_seen M.kit (known pass.new)) ≡ None)) }
{
    let mut boxed = turn.enter(rt, pass);
    let book: &mut Book<M> = &mut boxed;
    let answer = book.claim_first(alloc);
    book.legal();
    turn.leave(rt, pass, boxed);
    answer
}

/// Installs a ticket of the session's.
pub fn install<M: Machine, R: Wait>(
    rt: &R,
    turn: &Turn<Book<M>>,
    pass: &mut SessionPass<Book<M>>,
    verified: Verified<M>,
)
    requires turn { IsOf turn.now pass.old true }
    requires ticket { HasTicket M.kit Session verified (known pass.old) }
    requires own { owned (known pass.old).seen ≡ (known pass.old).own }
    requires room { HasOwnRoom (known pass.old) 1 }
    ensures turn { IsOf turn.now pass.new true }
    ensures free { IsFree (known pass.new) }
    ensures installed { HasInstalled M.kit M.valid verified.0 (known pass.old) (known pass.new) }
{
    let mut boxed = turn.enter(rt, pass);
    let book: &mut Book<M> = &mut boxed;
    let _ = book.install(Who::Session, verified);
    book.legal();
    turn.leave(rt, pass, boxed);
}

/// Gives a ticket of the session's up.
pub fn release<M: Machine, R: Wait>(
    rt: &R,
    turn: &Turn<Book<M>>,
    pass: &mut SessionPass<Book<M>>,
    ticket: Ticket<M>,
)
    requires turn { IsOf turn.now pass.old true }
    requires ticket { HasTicket M.kit Session ticket (known pass.old) }
    requires own { owned (known pass.old).seen ≡ (known pass.old).own }
    requires room { HasOwnRoom (known pass.old) 1 }
    ensures turn { IsOf turn.now pass.new true }
    ensures free { IsFree (known pass.new) }
    ensures visit { IsVisit M.kit M.valid (Releases ticket.0 Session ∷ []) (known pass.old) (known pass.new) }
{
    let mut boxed = turn.enter(rt, pass);
    let book: &mut Book<M> = &mut boxed;
    book.release(Who::Session, ticket);
    book.legal();
    turn.leave(rt, pass, boxed);
}

/// Shows the book.
pub fn show<M: Machine, R: Wait>(
    rt: &R,
    turn: &Turn<Book<M>>,
    pass: &mut SessionPass<Book<M>>,
) -> Shown
    requires turn { IsOf turn.now pass.old true }
    requires free { IsFree (known pass.old) }
    requires own { owned (known pass.old).seen ≡ (known pass.old).own }
    requires opened { IsOpened (book_seen M.kit (known pass.old)) }
    requires room { HasOwnRoom (known pass.old) 1 }
    ensures turn { IsOf turn.now pass.new true }
    ensures free { IsFree (known pass.new) }
    ensures visit { IsVisit M.kit M.valid (Shows (shown_to result) ∷ []) (known pass.old) (known pass.new) }
    ensures answer { shown_to result ≡ shown_in (book_seen M.kit (known pass.new)) }
{
    let mut boxed = turn.enter(rt, pass);
    let book: &mut Book<M> = &mut boxed;
    let answer = book.show();
    book.legal();
    turn.leave(rt, pass, boxed);
    answer
}
