// Rows of cycles: added at the end of a record, cut off there, and read.
ghost use Rattle.std.specs.Prelude.{◌≡◌, ◌≤◌, ◌<◌, ◌+◌, ◌-◌, ◌^◌, ◌++◌, [], length, take, replicate, slice_index_or, IfOk, IfErr, OnOk, OnErr, ◌==◌};
ghost use Rattle.machine.specs.Rows.{slice};
ghost use Rattle.stimulus.specs.Rows.{are_same, names_set};
ghost use Rattle.stimulus.specs.Records.{limit_of, rows_of};

use crate::lasting::{end_at, ends_with, names_in};
use crate::record_refusal::RecordRefusal;
use crate::recorded::Record;
use crate::row::Row;
use ls_text::NoMemory;
use machine::row_run::RowRun;
use machine::row_runs::{RowRuns, share_between};
use std::alloc::Global;
use std::sync::Arc;

impl Record {
    /// A record without rows, in which so many names may be set, counted once for each run of equal rows. It takes no memory.
    pub fn new(alloc: Global, limit: u64) -> Record
        ensures limit { limit_of result ≡ limit }
        ensures rows { rows_of result ≡ [] }
    {
        Record {
            limit,
            named: 0,
            runs: Vec::new(alloc),
        }
    }

    /// How many names may be set.
    pub fn limit(&self) -> u64
        ensures { result ≡ limit_of self.now }
    {
        self.limit
    }

    /// How many cycles have a row.
    pub fn len(&self) -> u64
        ensures { result ≡ length (rows_of self.now) }
    {
        match self.runs.last() {
            Some(run) => run.end,
            None => 0,
        }
    }

    /// Whether no cycle has a row.
    pub fn is_empty(&self) -> bool
        ensures { result ≡ (length (rows_of self.now) == 0) }
    {
        self.len() == 0
    }

    /// Adds the row `n` times, at least once, and keeps it once where the last row is the same. At most 2^64 - 1 cycles have a row.
    /// `StimulusFull` where more names would be set than the limit; after it and after want of memory, all is as it was.
    pub fn append(&mut self, row: Arc<Row, Global>, n: u64) -> Result<(), RecordRefusal>
        requires some { 1 ≤ n }
        requires room { length (rows_of self.old) + n ≤ 2 ^ 64 - 1 }
        ensures limit { limit_of self.new ≡ limit_of self.old }
        ensures ok { OnOk result (rows_of self.new ≡ rows_of self.old ++ replicate n row.value) }
        ensures err { OnErr result (rows_of self.new ≡ rows_of self.old) }
        ensures few { OnOk result (names_set are_same length (rows_of self.old ++ replicate n row.value) ≤ limit_of self.old) }
        ensures full { IfErr result (λ refusal. refusal ≡ RecordRefusal.StimulusFull → limit_of self.old < names_set are_same length (rows_of self.old ++ replicate n row.value)) }
    {
        let end = self.len();
        if ends_with(&self.runs, &row) {
            end_at(&mut self.runs, end + n);
            return Ok(());
        }
        let more = row.count() as u64;
        if self.limit - self.named < more {
            return Err(RecordRefusal::StimulusFull);
        }
        self.runs.push(RowRun {
            start: end,
            end: end + n,
            row,
        })?;
        self.named += more;
        Ok(())
    }

    /// Keeps the rows of the first `len` cycles alone. It takes no memory, and time for each run that goes.
    pub fn cut(&mut self, len: u64)
        requires { len ≤ length (rows_of self.old) }
        ensures limit { limit_of self.new ≡ limit_of self.old }
        ensures rows { rows_of self.new ≡ take len (rows_of self.old) }
    {
        let named = self.named;
        let kept = self.runs.partition_point(|run| run.start < len);
        self.named = named - names_in(&self.runs[kept..]);
        self.runs.truncate(kept);
        end_at(&mut self.runs, len);
    }

    /// The row of a cycle, found by halving.
    pub fn row_at(&self, t: u64) -> &Row
        requires { t < length (rows_of self.now) }
        ensures { result.now ≡ slice_index_or (rows_of self.now) t [] }
    {
        let index = self.runs.partition_point(|run| run.end <= t);
        &self.runs[index].row
    }

    /// The rows of the cycles from `a` to `b` - 1, shared.
    pub fn slice(&self, alloc: Global, a: u64, b: u64) -> Result<RowRuns<Row>, NoMemory>
        requires rises { a ≤ b }
        requires within { b ≤ length (rows_of self.now) }
        ensures { IfOk result (λ r. r ≡ (a, slice (rows_of self.now) a b)) }
    {
        share_between(alloc, 0, &self.runs, a, b)
    }
}
