// A history that is being written, with room for all of its entries.
ghost use Rattle.std.specs.Prelude.{◌≡◌, ℕ, ◌+◌, ◌≤◌, List, [], ◌∷◌, ◌++◌, length, IfOk, OnErr, OnOk};
ghost use Rattle.machine.specs.Rows.{between, Covers};
ghost use Rattle.book_history.specs.Book.{Opens, Runs, Reloads};
ghost use Rattle.book_history.specs.Entries.{IsBare};
ghost use Rattle.book_history.specs.Law.{record_of};
ghost use Rattle.book_history.specs.Legal.{Legal};
ghost use Rattle.book_history.specs.Weave.{event_of};

use crate::entry::Entry;
use crate::historied::Historied;
use crate::history::History;
use crate::load::Load;
use crate::rooms::Rooms;
use crate::version::Version;
use crate::written::Written;
use ls_text::NoMemory;
use machine::Machine;
use machine::merge::{merge_at, merged_rows};
use machine::row_runs::{RowRuns, share_between};
use std::alloc::Global;
use std::marker::Model;
use std::sync::Arc;

/// A history whose entries all have their place reserved, so that only what belongs to them takes memory.
#[derive(Drop)]
pub struct HistoryWriter<M: Machine> {
    written: Written<M, M::Row, M::Ops>,
}

impl<M: Machine> Model for HistoryWriter<M> {
    ghost use Rattle.std.specs.Prelude.{◌+◌, ◌≤◌, vec_capacity};
    ghost use Rattle.book_history.specs.Journal.{Journal};
    ghost use Rattle.book_history.specs.Written.{journal_of, IsWritten};

    ghost Value = { Journal M M.Row M.Ops };

    ghost view = { λ h. journal_of h.written };

    ghost invariant = { λ h. IsWritten M.kit M.valid h.written × (h.written.rooms.session + h.written.rooms.workers + 1 ≤ vec_capacity h.written.entries) };
}

impl<M: Machine> HistoryWriter<M> {
    /// A history with these settings and no entry, with room for all that its rooms allow and a close.
    pub fn new(
        alloc: Global,
        interval: u64,
        lookback: u64,
        rooms: Rooms,
    ) -> Result<HistoryWriter<M>, NoMemory>
        ensures settings { IfOk result (λ h. h.settings ≡ record { interval = interval; lookback = lookback; rooms = rooms }) }
        ensures events { IfOk result (λ h. h.events ≡ []) }
    {
        let places = u64::from(rooms.session) + u64::from(rooms.workers) + 1;
        let entries = Vec::with_capacity(alloc, places as usize)?;
        Ok(HistoryWriter {
            written: Written {
                interval,
                lookback,
                rooms,
                cycle: 0,
                entries,
                loads: Vec::new(alloc),
                runs: Vec::new(alloc),
            },
        })
    }

    /// Every history is legal.
    pub fn legal(&self)
        ensures { Legal M.kit M.valid self.now.settings self.now.events }
    {
        let _ = &self.written;
    }

    /// The cycle between two marks of a run, in cycles.
    pub fn interval(&self) -> u64
        ensures { result ≡ self.now.settings.interval }
    {
        self.written.interval
    }

    /// How far before the current cycle a reload begins, in cycles.
    pub fn lookback(&self) -> u64
        ensures { result ≡ self.now.settings.lookback }
    {
        self.written.lookback
    }

    /// How many entries there is room for.
    pub fn rooms(&self) -> Rooms
        ensures { result ≡ self.now.settings.rooms }
    {
        self.written.rooms
    }

    /// How many cycles were run.
    pub fn cycle(&self) -> u64
        ensures { result ≡ length (record_of self.now.events) }
    {
        self.written.cycle
    }

    /// The rows of the cycles from `a` to `b` - 1 of the record, shared.
    pub fn rows(&self, alloc: Global, a: u64, b: u64) -> Result<RowRuns<M::Row>, NoMemory>
        requires covers { Covers (0, record_of self.now.events) a b }
        ensures { IfOk result (λ r. r ≡ (a, between (0, record_of self.now.events) a b)) }
    {
        share_between(alloc, 0, &self.written.runs, a, b)
    }

    /// One entry more that no version and no row belongs to.
    pub fn push(&mut self, entry: Entry)
        requires bare { IsBare entry }
        requires legal { Legal M.kit M.valid self.old.settings (self.old.events ++ event_of entry [] [] ∷ []) }
        ensures settings { self.new.settings ≡ self.old.settings }
        ensures events { self.new.events ≡ self.old.events ++ event_of entry [] [] ∷ [] }
    {
        self.written.entries.push_reserved(entry);
    }

    /// The entry of an open.
    pub fn push_open(&mut self, version: Arc<Version<M>, Global>) -> Result<(), NoMemory>
        requires legal { Legal M.kit M.valid self.old.settings (self.old.events ++ Opens version.value.number version.value.machine.value ∷ []) }
        ensures settings { self.new.settings ≡ self.old.settings }
        ensures ok { OnOk result (self.new.events ≡ self.old.events ++ Opens version.value.number version.value.machine.value ∷ []) }
        ensures err { OnErr result (self.new.events ≡ self.old.events) }
    {
        let number = version.number;
        if self.written.loads.reserve(1).is_err() {
            return Err(NoMemory);
        }
        self.written.loads.push_reserved(Load::Open(version));
        self.written
            .entries
            .push_reserved(Entry::Open { version: number });
        Ok(())
    }

    /// The entry of a reload that chose cycle `from`.
    pub fn push_reload(
        &mut self,
        version: Arc<Version<M>, Global>,
        ops: Arc<M::Ops, Global>,
        from: u64,
    ) -> Result<(), NoMemory>
        requires legal { Legal M.kit M.valid self.old.settings (self.old.events ++ Reloads version.value.number version.value.machine.value ops.value from ∷ []) }
        ensures settings { self.new.settings ≡ self.old.settings }
        ensures ok { OnOk result (self.new.events ≡ self.old.events ++ Reloads version.value.number version.value.machine.value ops.value from ∷ []) }
        ensures err { OnErr result (self.new.events ≡ self.old.events) }
    {
        let number = version.number;
        if self.written.loads.reserve(1).is_err() {
            return Err(NoMemory);
        }
        self.written.loads.push_reserved(Load::Reload(version, ops));
        self.written.entries.push_reserved(Entry::Reload {
            version: number,
            from,
        });
        Ok(())
    }

    /// The entry of a run over these rows, which begin at the current cycle. Rows that follow each other and that the machine
    /// takes as the same are kept once, whether they come in one run of rows or not.
    pub fn push_run(&mut self, alloc: Global, rows: &RowRuns<M::Row>) -> Result<(), NoMemory>
        requires next { rows.now.0 ≡ length (record_of self.old.events) }
        requires legal { Legal M.kit M.valid self.old.settings (self.old.events ++ Runs (length rows.now.1) rows.now.1 ∷ []) }
        ensures settings { self.new.settings ≡ self.old.settings }
        ensures ok { OnOk result (self.new.events ≡ self.old.events ++ Runs (length rows.now.1) rows.now.1 ∷ []) }
        ensures err { OnErr result (self.new.events ≡ self.old.events) }
    {
        let end = rows.end();
        let n = end - rows.start();
        let merged = merged_rows::<M>(alloc, rows)?;
        let before = self.written.runs.len();
        if merged.append_to(&mut self.written.runs).is_err() {
            return Err(NoMemory);
        }
        merge_at::<M>(&mut self.written.runs, before);
        self.written.cycle = end;
        self.written.entries.push_reserved(Entry::Run { n });
        Ok(())
    }

    /// The history as it stands.
    pub fn into_history(self) -> History<M>
        ensures { result ≡ self }
    {
        let HistoryWriter { written } = self;
        History { written }
    }
}

impl<M: Machine> Historied for HistoryWriter<M> {
    type Machine = M;

    type Row = M::Row;

    type Ops = M::Ops;

    ghost history = { λ h. h };
}
