// A ticket with its result.
ghost use Rattle.std.specs.Prelude.{◌≡◌};
ghost use Rattle.book_history.specs.Book.{result_of};

use crate::ticket::Ticket;
use machine::Machine;
use std::marker::Model;

/// The result is that of running the ticket's own machine over its rows from its start.
#[derive(Drop)]
pub struct Verified<M: Machine> {
    pub(crate) ticket: Ticket<M>,
    pub(crate) outcome: M::State,
}

impl<M: Machine> Model for Verified<M> {
    ghost use Rattle.std.specs.Prelude.{◌≡◌, ℕ};
    ghost use Rattle.book_history.specs.Book.{DrawnTicket, result_of};

    ghost Value = { ℕ × DrawnTicket M M.State M.Row };

    ghost view = { λ v. v.ticket };

    ghost invariant = { λ v. v.outcome ≡ result_of M.kit v.ticket.1 };
}

impl<M: Machine> Verified<M> {
    /// The ticket with this result.
    pub fn new(ticket: Ticket<M>, outcome: M::State) -> Verified<M>
        requires outcome { outcome ≡ result_of M.kit ticket.1 }
        ensures { result ≡ ticket }
    {
        Verified { ticket, outcome }
    }

    /// The ticket's number.
    pub fn number(&self) -> u64
        ensures { result ≡ self.now.0 }
    {
        self.ticket.number()
    }
}
