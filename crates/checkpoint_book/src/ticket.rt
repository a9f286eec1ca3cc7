// A link to verify.
ghost use Rattle.std.specs.Prelude.{◌≡◌, ℕ, ◌+◌, ◌≤◌, length};

use book_history::version::Version;
use book_history::who::Who;
use machine::Machine;
use machine::row_runs::RowRuns;
use std::alloc::Global;
use std::marker::Model;
use std::sync::Arc;

/// The link's two cycles, the rows between them, the state at the first one, and the version under which it was drawn.
/// Contracts see its number and the ticket.
#[derive(Drop)]
pub struct Ticket<M: Machine> {
    pub(crate) number: u64,
    pub(crate) by: Who,
    pub(crate) version: Arc<Version<M>, Global>,
    pub(crate) a: u64,
    pub(crate) b: u64,
    pub(crate) rows: RowRuns<M::Row>,
    pub(crate) start: M::State,
}

impl<M: Machine> Model for Ticket<M> {
    ghost use Rattle.std.specs.Prelude.{ℕ};
    ghost use Rattle.book_history.specs.Book.{DrawnTicket};
    ghost use Rattle.checkpoint_book.specs.Tickets.{IsTicket};

    ghost Value = { ℕ × DrawnTicket M M.State M.Row };

    ghost view = { λ t. (t.number, record { by = t.by; version = t.version.value.number; machine = t.version.value.machine.value; a = t.a; b = t.b; rows = t.rows.1; start = t.start }) };

    ghost invariant = { λ t. IsTicket (M.fits t.version.value.machine.value) t.a t.b t.rows t.start };
}

impl<M: Machine> Ticket<M> {
    /// Its number, from 1 on.
    pub fn number(&self) -> u64
        ensures { result ≡ self.now.0 }
    {
        self.number
    }

    /// The version under which it was drawn.
    pub fn version(&self) -> &Arc<Version<M>, Global>
        ensures number { result.now.value.number ≡ self.now.1.version }
        ensures machine { result.now.value.machine.value ≡ self.now.1.machine }
    {
        &self.version
    }

    /// The link's first cycle.
    pub fn a(&self) -> u64
        ensures { result ≡ self.now.1.a }
    {
        self.a
    }

    /// The link's last cycle, which is not below the first.
    pub fn b(&self) -> u64
        ensures value { result ≡ self.now.1.b }
        ensures rises { self.now.1.a ≤ result }
    {
        self.b
    }

    /// The rows of the cycles from `a` to `b` - 1, and of no other.
    pub fn rows(&self) -> &RowRuns<M::Row>
        ensures value { result.now ≡ (self.now.1.a, self.now.1.rows) }
        ensures covers { self.now.1.a + length self.now.1.rows ≡ self.now.1.b }
    {
        &self.rows
    }

    /// The state at cycle `a`, which is the machine's own.
    pub fn start(&self) -> &M::State
        ensures value { result.now ≡ self.now.1.start }
        ensures fits { M.fits self.now.1.machine result.now }
    {
        &self.start
    }
}
