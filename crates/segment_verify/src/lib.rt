// The verification of a stretch between two marks: its ticket's own machine runs over the ticket's rows (`verification`). And who does it:
// a worker that claims such stretches from a shared book, verifies and installs them (`worker`), and sleeps in between (`idling`); or the one thread
// of a `settle` (`book_settle`), by passes, each of which joins the first link that isn't joined, and then a show. `laws` says what such passes leave
// of a book.
#![tactic(auto)]

ghost use Rattle.std.specs.Prelude.{◌≡◌, ◌+◌, ◌-◌, ◌*◌, ◌≤◌};
ghost use Rattle.segment_verify.specs.Outcome.{IsTicketOf, IsDone};

mod book_settle;
mod idling;
pub mod laws;
pub mod verification;
pub mod worker;

pub use book_settle::settle;
use checkpoint_book::ticket::Ticket;
use checkpoint_book::verified::Verified;
use machine::Machine;
use machine::steps::Steps;
use std::alloc::Global;
use std::sync::ledger::Ledger;
use verification::Verification;

/// Runs the ticket's machine from its start over its rows. A verified ticket's result is that run; the counter then has
/// risen by the machine's steps for each of the ticket's cycles, and by no more where memory ran out.
pub fn verify<M: Machine, L: Ledger>(
    alloc: Global,
    t: Ticket<M>,
    steps: &mut Steps<L>,
) -> Verification<M>
    ensures ticket { IsTicketOf t result }
    ensures taken { IsDone result → steps.new ≡ steps.old + (t.1.b - t.1.a) * M.work t.1.machine }
    ensures rises { steps.old ≤ steps.new }
    ensures most { steps.new ≤ steps.old + (t.1.b - t.1.a) * M.work t.1.machine }
{
    let version = t.version();
    let machine: &M = &*version.machine;
    match machine.advance(alloc, t.rows(), t.start(), t.a(), t.b(), steps) {
        Ok(outcome) => Verification::Done(Verified::new(t, outcome)),
        Err(_) => Verification::NoMemory(t),
    }
}
