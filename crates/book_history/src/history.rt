// The history of a book: its settings, its entries and all that belongs to them.
ghost use Rattle.std.specs.Prelude.{◌≡◌, [], map, length};
ghost use Rattle.machine.specs.Rows.{expanded, IsGapless};
ghost use Rattle.book_history.specs.Entries.{entry_of};
ghost use Rattle.book_history.specs.Law.{record_of};
ghost use Rattle.book_history.specs.Legal.{Legal};
ghost use Rattle.book_history.specs.Weave.{weave, AreHeld};

use crate::entry::Entry;
use crate::historied::Historied;
use crate::load::Load;
use crate::rooms::Rooms;
use crate::written::Written;
use machine::Machine;
use machine::row_run::RowRun;
use std::alloc::Global;
use std::marker::Model;

/// Entries with the versions, operations and rows that belong to them. Whatever its entries, they are legal.
#[derive(Drop)]
pub struct History<M: Machine> {
    pub(crate) written: Written<M, M::Row, M::Ops>,
}

impl<M: Machine> Model for History<M> {
    ghost use Rattle.book_history.specs.Journal.{Journal};
    ghost use Rattle.book_history.specs.Written.{journal_of, IsWritten};

    ghost Value = { Journal M M.Row M.Ops };

    ghost view = { λ h. journal_of h.written };

    ghost invariant = { λ h. IsWritten M.kit M.valid h.written };
}

impl<M: Machine> History<M> {
    /// A history with these settings and no entry. It takes no memory.
    pub fn empty(alloc: Global, interval: u64, lookback: u64, rooms: Rooms) -> History<M>
        ensures settings { result.settings ≡ record { interval = interval; lookback = lookback; rooms = rooms } }
        ensures events { result.events ≡ [] }
    {
        History {
            written: Written {
                interval,
                lookback,
                rooms,
                cycle: 0,
                entries: Vec::new(alloc),
                loads: Vec::new(alloc),
                runs: Vec::new(alloc),
            },
        }
    }

    /// Every history is legal.
    pub fn legal(&self)
        ensures { Legal M.kit M.valid self.now.settings self.now.events }
    {
        let _ = &self.written;
    }

    /// The cycles between two marks of a run.
    pub fn interval(&self) -> u64
        ensures { result ≡ self.now.settings.interval }
    {
        self.written.interval
    }

    /// How far before the current cycle a reload begins, in cycles.
    pub fn lookback(&self) -> u64
        ensures { result ≡ self.now.settings.lookback }
    {
        self.written.lookback
    }

    /// How many entries there is room for.
    pub fn rooms(&self) -> Rooms
        ensures { result ≡ self.now.settings.rooms }
    {
        self.written.rooms
    }

    /// How many cycles were run.
    pub fn cycle(&self) -> u64
        ensures { result ≡ length (record_of self.now.events) }
    {
        self.written.cycle
    }

    /// The entries, in order.
    pub fn entries(&self) -> &[Entry]
        ensures { result.now ≡ map entry_of self.now.events }
    {
        &self.written.entries
    }

    /// The versions that came, each with its operations where it is a reload's: one for each open and each reload, in the order of
    /// the entries. The history is its entries, each with the next of these where it needs one, and with the rows of the record.
    pub fn loads(&self) -> &[Load<M, M::Ops>]
        ensures held { AreHeld (map entry_of self.now.events) result.now (record_of self.now.events) }
        ensures events { self.now.events ≡ weave (map entry_of self.now.events) result.now (record_of self.now.events) }
    {
        &self.written.loads
    }

    /// The rows of all cycles, as they are kept: runs of equal rows, in order, without a gap from cycle 0 on.
    pub fn runs(&self) -> &[RowRun<M::Row>]
        ensures rows { expanded result.now ≡ record_of self.now.events }
        ensures gapless { IsGapless 0 result.now (length (record_of self.now.events)) }
    {
        &self.written.runs
    }
}

impl<M: Machine> Historied for History<M> {
    type Machine = M;

    type Row = M::Row;

    type Ops = M::Ops;

    ghost history = { λ h. h };
}
