// The calls of a case that draw a ticket or use one up.
ghost use Rattle.std.specs.Prelude.{◌≡◌, false, IfOk};
ghost use Rattle.book_history.specs.Outs.{IsOutFor};
ghost use Rattle.checkpoint_book.specs.Views.{book_of, counts_of};
ghost use Rattle.book_tests.specs.Held.{tally_kit, Keeps, KeepsOthers};

use crate::book_answer::BookAnswer;
use crate::held_ticket::HeldTicket;
use book_history::who::Who;
use checkpoint_book::book::Book;
use checkpoint_book::claimed::Claimed;
use checkpoint_book::installed::Installed;
use checkpoint_book::ticket::Ticket;
use machine::steps::Steps;
use machine::tally::TallyMachine;
use segment_verify::verification::Verification;
use segment_verify::verify;
use std::alloc::Global;
use std::sync::ledger::Ledger;
use std::test::Fail;

/// The session's claim: a ticket, or what is answered where there is none.
#[tactic(auto, using(crate::proofs::Tries::keeps_same))]
pub fn take_first(
    book: &mut Book<TallyMachine>,
    alloc: Global,
) -> Result<Result<HeldTicket, BookAnswer>, Fail>
    requires open { (counts_of book.old).closed ≡ false }
    ensures keeps { Keeps book.old book.new }
    ensures drawn { IfOk result (λ r. IfOk r (λ h. IsOutFor (book_of tally_kit book.new) h.ticket.0 h.ticket.1 h.by)) }
{
    if book.session_room() < 2 {
        return Err("no room")?;
    }
    match book.claim_first(alloc)? {
        Some(ticket) => Ok(Ok(HeldTicket {
            ticket,
            by: Who::Session,
        })),
        None => Ok(Err(BookAnswer::AllJoined)),
    }
}

/// A worker's claim: a ticket, or what is answered where there is none.
#[tactic(auto, using(crate::proofs::Tries::keeps_same))]
pub fn take_open(
    book: &mut Book<TallyMachine>,
    alloc: Global,
    worker: u16,
) -> Result<Result<HeldTicket, BookAnswer>, Fail>
    ensures keeps { Keeps book.old book.new }
    ensures drawn { IfOk result (λ r. IfOk r (λ h. IsOutFor (book_of tally_kit book.new) h.ticket.0 h.ticket.1 h.by)) }
{
    match book.claim(alloc, worker)? {
        Claimed::Ticket(ticket) => Ok(Ok(HeldTicket {
            ticket,
            by: Who::Worker(worker),
        })),
        Claimed::Nothing { full, closed } => Ok(Err(BookAnswer::Nothing(full, closed))),
    }
}

/// A ticket's number, cycles and start.
pub fn drawn(ticket: &Ticket<TallyMachine>) -> BookAnswer {
    BookAnswer::Drawn(ticket.number(), ticket.a(), ticket.b(), *ticket.start())
}

/// A ticket is verified and installed.
#[tactic(auto, using(crate::proofs::Tries::keeps_same, crate::proofs::Tries::keeps_all_others))]
pub fn hand_in<L: Ledger>(
    book: &mut Book<TallyMachine>,
    alloc: Global,
    held: HeldTicket,
    steps: &mut Steps<L>,
) -> Result<Installed, Fail>
    requires out { IsOutFor (book_of tally_kit book.old) held.ticket.0 held.ticket.1 held.by }
    ensures { KeepsOthers held.ticket.0 book.old book.new }
{
    let HeldTicket { ticket, by } = held;
    if book.session_room() < 1 {
        return Err("no room")?;
    }
    match verify(alloc, ticket, steps) {
        Verification::Done(verified) => Ok(book.install(by, verified)),
        Verification::NoMemory(_) => Err("no memory")?,
    }
}

/// A ticket is given up.
#[tactic(auto, using(crate::proofs::Tries::keeps_same, crate::proofs::Tries::keeps_all_others))]
pub fn give_up(book: &mut Book<TallyMachine>, held: HeldTicket) -> Result<(), Fail>
    requires out { IsOutFor (book_of tally_kit book.old) held.ticket.0 held.ticket.1 held.by }
    ensures { KeepsOthers held.ticket.0 book.old book.new }
{
    let HeldTicket { ticket, by } = held;
    if book.session_room() < 1 {
        return Err("no room")?;
    }
    book.release(by, ticket);
    Ok(())
}
