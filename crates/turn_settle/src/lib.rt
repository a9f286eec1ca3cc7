// A settle of a book that others have turns of: passes, each of which joins the first link that isn't joined, and then a show.
//
// `settle` makes the passes and the show, and `visits` are the turns of the session that it takes for them. What the session's pass of
// the turn knows before and behind it stands in `specs/Settled`, with its entries by the words of `segment_verify`.
#![tactic(auto)]

mod visits;

ghost use Rattle.std.specs.Prelude.{◌≡◌, ◌+◌, ◌*◌, ◌≤◌, ◌<◌, ◌∷◌, [], None, true, false, min, IfOk, OnOk, OnErr};
ghost use Rattle.book_history.specs.Book.{Releases};
ghost use Rattle.book_history.specs.Owned.{owned};
ghost use Rattle.book_history.specs.Readers.{IsOpened, links_in};
ghost use Rattle.book_history.specs.declared.who.Who.TheVariants.{Session};
ghost use Rattle.book_turn.specs.Passes.{IsOf, known};
ghost use Rattle.checkpoint_book.specs.Answers.{shown_to};
ghost use Rattle.checkpoint_book.specs.Views.{shown_in};
ghost use Rattle.segment_verify.specs.Outcome.{IsTicketOf};
ghost use Rattle.segment_verify.specs.Workers.{is_closed, IsFree, HasTicket};
ghost use Rattle.turn_settle.specs.Passed.{IsPassBeside, HasPassedBeside, HasGivenUpBeside};
ghost use Rattle.turn_settle.specs.Seen.{book_seen, HasOwnRoom, IsLegalUnder};
ghost use Rattle.turn_settle.specs.Settled.{HasSettledBeside, HasTriedBeside};
ghost use Rattle.turn_settle.specs.Visits.{IsVisit, HasInstalled};

use book_history::laws::{legal_histories, outlines_of_histories};
use book_turn::{SessionPass, Turn};
use checkpoint_book::book::Book;
use checkpoint_book::shown::Shown;
use checkpoint_book::ticket::Ticket;
use ls_port::{Gate, GateStep};
use ls_text::NoMemory;
use machine::Machine;
use machine::steps::Steps;
use segment_verify::verification::Verification;
use segment_verify::verify;
use std::alloc::Global;
use std::marker::Brand;
use std::sync::Wait;
use std::sync::ledger::{Blank, Ledger};
pub use visits::links;

/// Settles a book in turns of the session's own, by at most so many passes, and then shows it. A pass claims the first link that
/// isn't joined, even if it is out with a worker, runs its ticket's machine over its rows while others may have the book, and
/// installs the result. So at least one link more leads behind it, whatever others add; where no such link is left, there are
/// fewer passes. The answer is that of the show: with a pass for each link, it is settled.
///
/// The gate is asked before each verification, and before each install or release. Where memory runs out, the passes that were
/// made stay, the ticket of the last one is given up, and there is no show.
pub fn settle<M: Machine, G: Gate, R: Wait>(
    rt: &R,
    alloc: Global,
    turn: &Turn<Book<M>>,
    pass: &mut SessionPass<Book<M>>,
    gate: &G,
    passes: u32,
) -> Result<Shown, NoMemory>
    requires turn { IsOf turn.now pass.old true }
    requires free { IsFree (known pass.old) }
    requires own { owned (known pass.old).seen ≡ (known pass.old).own }
    requires opened { IsOpened (book_seen M.kit (known pass.old)) }
    requires open { is_closed (known pass.old).own ≡ false }
    requires room { HasOwnRoom (known pass.old) (2 * min passes (links_in (book_seen M.kit (known pass.old))) + 1) }
    ensures turn { IsOf turn.now pass.new true }
    ensures free { IsFree (known pass.new) }
    ensures own { owned (known pass.new).seen ≡ (known pass.new).own }
    ensures legal { IsLegalUnder M.kit M.valid (known pass.new).settings (known pass.new).seen }
    ensures ok { IfOk result (λ s. HasSettledBeside M.kit (known pass.old) (known pass.new) passes (shown_to s)) }
    ensures err { OnErr result (HasTriedBeside (known pass.old) (known pass.new) (min passes (links_in (book_seen M.kit (known pass.old))))) }
{
    outlines_of_histories::<M>();
    let most = passes.min(visits::links(rt, turn, pass));
    make_passes(rt, alloc, turn, pass, gate, most)?;
    Ok(visits::show(rt, turn, pass))
}

/// At most so many passes, and fewer only where all links are joined then.
#[tactic(auto, using(crate::proofs::Passing::passed_none, crate::proofs::Passing::passed_more, crate::proofs::Passing::passed_stop))]
fn make_passes<M: Machine, G: Gate, R: Wait>(
    rt: &R,
    alloc: Global,
    turn: &Turn<Book<M>>,
    pass: &mut SessionPass<Book<M>>,
    gate: &G,
    most: u32,
) -> Result<u32, NoMemory>
    requires turn { IsOf turn.now pass.old true }
    requires free { IsFree (known pass.old) }
    requires own { owned (known pass.old).seen ≡ (known pass.old).own }
    requires open { is_closed (known pass.old).own ≡ false }
    requires room { HasOwnRoom (known pass.old) (2 * most) }
    ensures turn { IsOf turn.now pass.new true }
    ensures free { IsFree (known pass.new) }
    ensures own { owned (known pass.new).seen ≡ (known pass.new).own }
    ensures legal { OnErr result (IsLegalUnder M.kit M.valid (known pass.new).settings (known pass.new).seen) }
    ensures passed { IfOk result (λ n. HasPassedBeside M.kit (known pass.old) (known pass.new) n) }
    ensures few { IfOk result (λ n. n ≤ most) }
    ensures stops { IfOk result (λ n. n < most → shown_in (book_seen M.kit (known pass.new)) ≡ None) }
    ensures err { OnErr result (HasTriedBeside (known pass.old) (known pass.new) most) }
{
    let mut count = 0;
    'passes: while count < most {
        match make_pass(rt, alloc, turn, pass, gate) {
            Ok(true) => count += 1,
            Ok(false) => return Ok(count),
            Err(NoMemory) => return Err(NoMemory),
        }
    }
    Ok(count)
}

/// Claims the first link that isn't joined, verifies and installs it: whether there was one. Where memory runs out the
/// ticket is given up.
fn make_pass<M: Machine, G: Gate, R: Wait>(
    rt: &R,
    alloc: Global,
    turn: &Turn<Book<M>>,
    pass: &mut SessionPass<Book<M>>,
    gate: &G,
) -> Result<bool, NoMemory>
    requires turn { IsOf turn.now pass.old true }
    requires free { IsFree (known pass.old) }
    requires own { owned (known pass.old).seen ≡ (known pass.old).own }
    requires open { is_closed (known pass.old).own ≡ false }
    requires room { HasOwnRoom (known pass.old) 2 }
    ensures turn { IsOf turn.now pass.new true }
    ensures free { IsFree (known pass.new) }
    ensures own { owned (known pass.new).seen ≡ (known pass.new).own }
    ensures legal { OnErr result (IsLegalUnder M.kit M.valid (known pass.new).settings (known pass.new).seen) }
    ensures ok { IfOk result (λ more. IsPassBeside M.kit (known pass.old) (known pass.new) more) }
    ensures err { OnErr result (HasGivenUpBeside (known pass.old) (known pass.new)) }
{
    legal_histories::<M>();
    outlines_of_histories::<M>();
    match visits::claim(rt, alloc, turn, pass) {
        Ok(Some(ticket)) => match work_on(rt, alloc, turn, pass, gate, ticket) {
            Ok(()) => Ok(true),
            Err(NoMemory) => Err(NoMemory),
        },
        Ok(None) => Ok(false),
        Err(NoMemory) => Err(NoMemory),
    }
}

/// Verifies a ticket while others may have the book, and installs it, or gives it up where memory runs out.
fn work_on<M: Machine, G: Gate, R: Wait>(
    rt: &R,
    alloc: Global,
    turn: &Turn<Book<M>>,
    pass: &mut SessionPass<Book<M>>,
    gate: &G,
    ticket: Ticket<M>,
) -> Result<(), NoMemory>
    requires turn { IsOf turn.now pass.old true }
    requires ticket { HasTicket M.kit Session ticket (known pass.old) }
    requires own { owned (known pass.old).seen ≡ (known pass.old).own }
    requires room { HasOwnRoom (known pass.old) 1 }
    ensures turn { IsOf turn.now pass.new true }
    ensures free { IsFree (known pass.new) }
    ensures ok { OnOk result (HasInstalled M.kit M.valid ticket.0 (known pass.old) (known pass.new)) }
    ensures err { OnErr result (IsVisit M.kit M.valid (Releases ticket.0 Session ∷ []) (known pass.old) (known pass.new)) }
{
    let drawn = ticket.number();
    gate.before(drawn, GateStep::Verify);
    let verification = uncounted::<M, Brand>(alloc, ticket, Blank::new(1));
    gate.before(drawn, GateStep::Install);
    match verification {
        Verification::Done(verified) => {
            visits::install(rt, turn, pass, verified);
            Ok(())
        }
        Verification::NoMemory(ticket) => {
            visits::release(rt, turn, pass, ticket);
            Err(NoMemory)
        }
    }
}

/// Verifies with a counter of its own, which nobody reads.
fn uncounted<M: Machine, L: Ledger>(
    alloc: Global,
    ticket: Ticket<M>,
    blank: Blank,
) -> Verification<M>
    requires name { blank.name ≡ L.name }
    requires parts { blank.parts ≡ L.parts }
    requires some { 0 < blank.parts }
    ensures { IsTicketOf ticket result }
{
    let mut steps = Steps::<L>::start(blank);
    verify(alloc, ticket, &mut steps)
}
