// What a worker does: it claims in one turn of the book, verifies outside of it, and installs in another, until the book
// is closed.
ghost use Rattle.std.specs.Prelude.{◌≡◌, ◌<◌, false, IfOk};
ghost use Rattle.book_history.specs.declared.who.Who.TheVariants.{Worker};
ghost use Rattle.book_turn.specs.Passes.{IsOf, known};
ghost use Rattle.segment_verify.specs.Outcome.{IsTicketOf};
ghost use Rattle.segment_verify.specs.Entries.{HasHandedIn, HasTurned, HasAsked};
ghost use Rattle.segment_verify.specs.Workers.{IsFree, HasEnded, HasTicket, HasDrawn, TellsClosed, drawn_in};

use crate::idling::Idling;
use crate::verification::Verification;
use crate::verify;
use book_history::who::Who;
use book_turn::{Turn, WorkerPass};
use checkpoint_book::book::Book;
use checkpoint_book::claimed::Claimed;
use checkpoint_book::ticket::Ticket;
use checkpoint_book::verified::Verified;
use ls_port::{Gate, GateStep};
use ls_text::NoMemory;
use machine::Machine;
use machine::steps::Steps;
use std::alloc::Global;
use std::marker::Brand;
use std::sync::Wait;
use std::sync::ledger::{Blank, Ledger};

/// Claims, verifies and installs as worker `number` until a claim tells that the book is closed. The pass comes back free,
/// and has seen the Close; what it added are, for each ticket that it drew, its claim and its install or release, all by
/// `number`.
///
/// The gate is asked before each verification, and before each install or release, while others may have the book. A ticket
/// whose verification wants memory is given up. Where no link is open, or a claim wants memory, it tries again: at once, then whenever it gets a processor,
/// and after a while every 5 ms.
#[tactic(auto, using(crate::proofs::Turns::turned_none, crate::proofs::Turns::turned_same))]
pub fn worker_loop<M: Machine, G: Gate, R: Wait>(
    rt: &R,
    alloc: Global,
    turn: &Turn<Book<M>>,
    mut pass: WorkerPass<Book<M>>,
    number: u16,
    gate: &G,
) -> WorkerPass<Book<M>>
    requires turn { IsOf turn.now pass false }
    requires free { IsFree (known pass) }
    ensures turn { IsOf turn.now result false }
    ensures ended { HasEnded (known result) }
    ensures entries { HasTurned (Worker number) (known pass) (known result) }
{
    let idling = Idling::new();
    for _ in rt.forever() {
        match claim(rt, alloc, turn, &mut pass, number) {
            Ok(Claimed::Ticket(ticket)) => {
                work_on(rt, alloc, turn, &mut pass, number, gate, ticket);
                idling.reset();
            }
            Ok(Claimed::Nothing { closed: true, .. }) => return pass,
            Ok(Claimed::Nothing { closed: false, .. }) => idling.rest(rt),
            Err(NoMemory) => idling.rest(rt),
        }
    }
    unreachable!()
}

/// Verifies a ticket while others may have the book, and installs it, or gives it up where memory runs out.
fn work_on<M: Machine, G: Gate, R: Wait>(
    rt: &R,
    alloc: Global,
    turn: &Turn<Book<M>>,
    pass: &mut WorkerPass<Book<M>>,
    number: u16,
    gate: &G,
    ticket: Ticket<M>,
)
    requires turn { IsOf turn.now pass.old false }
    requires ticket { HasTicket M.kit (Worker number) ticket (known pass.old) }
    ensures turn { IsOf turn.now pass.new false }
    ensures free { IsFree (known pass.new) }
    ensures entries { HasHandedIn (Worker number) ticket.0 (known pass.old) (known pass.new) }
{
    let drawn = ticket.number();
    gate.before(drawn, GateStep::Verify);
    let verification = uncounted::<M, Brand>(alloc, ticket, Blank::new(1));
    gate.before(drawn, GateStep::Install);
    match verification {
        Verification::Done(verified) => install(rt, turn, pass, number, verified),
        Verification::NoMemory(ticket) => release(rt, turn, pass, number, ticket),
    }
}

/// Verifies with a counter of its own, which nobody reads.
fn uncounted<M: Machine, L: Ledger>(
    alloc: Global,
    ticket: Ticket<M>,
    blank: Blank,
) -> Verification<M>
    requires name { blank.name ≡ L.name }
    requires parts { blank.parts ≡ L.parts }
    requires some { 0 < blank.parts }
    ensures { IsTicketOf ticket result }
{
    let mut steps = Steps::<L>::start(blank);
    verify(alloc, ticket, &mut steps)
}

/// Claims in one turn of the book.
fn claim<M: Machine, R: Wait>(
    rt: &R,
    alloc: Global,
    turn: &Turn<Book<M>>,
    pass: &mut WorkerPass<Book<M>>,
    number: u16,
) -> Result<Claimed<M>, NoMemory>
    requires turn { IsOf turn.now pass.old false }
    requires free { IsFree (known pass.old) }
    ensures turn { IsOf turn.now pass.new false }
    ensures drawn { HasDrawn M.kit (Worker number) (drawn_in result) (known pass.new) }
    ensures told { IfOk result (λ r. TellsClosed (known pass.new).seen r) }
    ensures entries { HasAsked (Worker number) (drawn_in result) (known pass.old) (known pass.new) }
{
    let mut boxed = turn.enter(rt, pass);
    let book: &mut Book<M> = &mut boxed;
    let answer = book.claim(alloc, number);
    turn.leave(rt, pass, boxed);
    answer
}

/// Installs in one turn of the book.
fn install<M: Machine, R: Wait>(
    rt: &R,
    turn: &Turn<Book<M>>,
    pass: &mut WorkerPass<Book<M>>,
    number: u16,
    verified: Verified<M>,
)
    requires turn { IsOf turn.now pass.old false }
    requires ticket { HasTicket M.kit (Worker number) verified (known pass.old) }
    ensures turn { IsOf turn.now pass.new false }
    ensures free { IsFree (known pass.new) }
    ensures entries { HasHandedIn (Worker number) verified.0 (known pass.old) (known pass.new) }
{
    let mut boxed = turn.enter(rt, pass);
    let book: &mut Book<M> = &mut boxed;
    let _ = book.install(Who::Worker(number), verified);
    turn.leave(rt, pass, boxed);
}

/// Gives a ticket up in one turn of the book.
fn release<M: Machine, R: Wait>(
    rt: &R,
    turn: &Turn<Book<M>>,
    pass: &mut WorkerPass<Book<M>>,
    number: u16,
    ticket: Ticket<M>,
)
    requires turn { IsOf turn.now pass.old false }
    requires ticket { HasTicket M.kit (Worker number) ticket (known pass.old) }
    ensures turn { IsOf turn.now pass.new false }
    ensures free { IsFree (known pass.new) }
    ensures entries { HasHandedIn (Worker number) ticket.0 (known pass.old) (known pass.new) }
{
    let mut boxed = turn.enter(rt, pass);
    let book: &mut Book<M> = &mut boxed;
    book.release(Who::Worker(number), ticket);
    turn.leave(rt, pass, boxed);
}
