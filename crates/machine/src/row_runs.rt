// Shared rows of cycles: runs of equal rows that follow each other without a gap.
ghost use Rattle.std.specs.Prelude.{◌≡◌, ℕ, ◌+◌, ◌-◌, ◌≤◌, ◌<◌, ◌∷◌, ◌++◌, length, IfOk, OnOk, OnErr};
ghost use Rattle.machine.specs.declared.row_run.RowRun.{RowRun};
ghost use Rattle.machine.specs.Rows.{expanded, slice, IsGapless, begins_at, between, Covers, IsWithRun, IsWithRuns};

use crate::row_run::RowRun;
use crate::stretch::Stretch;
use ls_text::NoMemory;
use std::alloc::Global;
use std::marker::Model;
use std::sync::{Arc, ArcSlice};

/// The rows of the cycles from `start` to `end` - 1, shared.
#[derive(Drop)]
pub struct RowRuns<R> {
    start: u64,
    end: u64,
    runs: ArcSlice<RowRun<R>, Global>,
}

impl<R> Model for RowRuns<R> {
    ghost use Rattle.std.specs.Prelude.{ℕ, List};
    ghost use Rattle.std.specs.Arc.{arc_slice_items};
    ghost use Rattle.machine.specs.Rows.{expanded, IsGapless};

    ghost Value = { ℕ × List R };

    ghost view = { λ r. (r.start, expanded (arc_slice_items r.runs)) };

    ghost invariant = { λ r. IsGapless r.start (arc_slice_items r.runs) r.end };
}

/// The index of the run that covers a cycle, found by halving.
fn run_at<R>(start: u64, runs: &[RowRun<R>], cycle: u64) -> usize
    requires gapless { IsGapless start runs.now (start + length (expanded runs.now)) }
    requires begins { start ≤ cycle }
    requires ends { cycle < start + length (expanded runs.now) }
    ensures within { result < length runs.now }
    ensures begins { begins_at start runs.now result ≤ cycle }
    ensures ends { cycle < begins_at start runs.now (result + 1) }
{
    let mut low = 0;
    let mut high = runs.len();
    while low + 1 < high {
        let middle = low + (high - low) / 2;
        if runs[middle].start <= cycle {
            low = middle;
        } else {
            high = middle;
        }
    }
    low
}

/// The earlier of two cycles.
fn earlier(a: u64, b: u64) -> u64
    ensures first { result ≤ a }
    ensures second { result ≤ b }
    ensures either { result < b → result ≡ a }
{
    if a < b { a } else { b }
}

/// The rows of the cycles from `a` to `b` - 1 of runs that begin at cycle `start`, each row shared. A record that isn't one
/// value yet, but a list that grows, is read by it.
pub fn share_between<R: Drop>(
    alloc: Global,
    start: u64,
    runs: &[RowRun<R>],
    a: u64,
    b: u64,
) -> Result<RowRuns<R>, NoMemory>
    requires gapless { IsGapless start runs.now (start + length (expanded runs.now)) }
    requires covers { Covers (start, expanded runs.now) a b }
    ensures { IfOk result (λ r. r ≡ (a, between (start, expanded runs.now) a b)) }
{
    let mut part = Vec::new(alloc);
    if a == b {
        return RowRuns::new(a, b, part);
    }
    let mut index = run_at(start, runs, a);
    let mut at = a;
    while at < b {
        let run = &runs[index];
        let stop = earlier(run.end, b);
        let row = Arc::try_clone(&run.row)?;
        part.push(RowRun {
            start: at,
            end: stop,
            row,
        })?;
        at = stop;
        index += 1;
    }
    RowRuns::new(a, b, part)
}

/// One run more, its row shared.
pub(crate) fn append_run<R: Drop>(
    list: &mut Vec<RowRun<R>>,
    run: &RowRun<R>,
) -> Result<(), NoMemory>
    ensures ok { OnOk result (IsWithRun list.old.items run.now list.new.items) }
    ensures kept { OnErr result (list.new.items ≡ list.old.items) }
{
    let row = Arc::try_clone(&run.row)?;
    let shared = RowRun {
        start: run.start,
        end: run.end,
        row,
    };
    list.push(shared)?;
    Ok(())
}

/// All of these runs behind the ones of a list, each row shared, or none.
fn append_runs<R: Drop>(list: &mut Vec<RowRun<R>>, runs: &[RowRun<R>]) -> Result<(), NoMemory>
    ensures ok { OnOk result (IsWithRuns list.old.items runs.now list.new.items) }
    ensures kept { OnErr result (list.new.items ≡ list.old.items) }
{
    let before = list.len();
    for run in runs {
        if append_run(list, run).is_err() {
            list.truncate(before);
            return Err(NoMemory);
        }
    }
    Ok(())
}

impl<R: Drop> RowRuns<R> {
    /// The runs as one shared value. `start` is where they begin, and `end` where they end.
    pub fn new(start: u64, end: u64, runs: Vec<RowRun<R>>) -> Result<RowRuns<R>, NoMemory>
        requires { IsGapless start runs.items end }
        ensures { IfOk result (λ r. r ≡ (start, expanded runs.items)) }
    {
        let runs = ArcSlice::from_vec(runs)?;
        Ok(RowRuns { start, end, runs })
    }

    /// The first cycle that has a row here.
    pub fn start(&self) -> u64
        ensures { result ≡ self.now.0 }
    {
        self.start
    }

    /// The cycle after the last one that has a row here.
    pub fn end(&self) -> u64
        ensures { result ≡ self.now.0 + length self.now.1 }
    {
        self.end
    }

    /// The same rows, shared.
    pub fn share(&self) -> Result<RowRuns<R>, NoMemory>
        ensures { IfOk result (λ r. r ≡ self.now) }
    {
        Ok(RowRuns {
            start: self.start,
            end: self.end,
            runs: self.runs.clone()?,
        })
    }

    /// The runs, in order.
    pub(crate) fn runs(&self) -> &[RowRun<R>]
        ensures rows { expanded result.now ≡ self.now.1 }
        ensures gapless { IsGapless self.now.0 result.now (self.now.0 + length self.now.1) }
    {
        &self.runs
    }

    /// These runs behind the ones of a list. Where memory runs out, the list is as it was.
    pub fn append_to(&self, list: &mut Vec<RowRun<R>>) -> Result<(), NoMemory>
        ensures rows { OnOk result (expanded list.new.items ≡ expanded list.old.items ++ self.now.1) }
        ensures gapless { OnOk result ((a : ℕ) → IsGapless a list.old.items self.now.0 → IsGapless a list.new.items (self.now.0 + length self.now.1)) }
        ensures kept { OnErr result (list.new.items ≡ list.old.items) }
    {
        append_runs(list, &self.runs)
    }

    /// The row of a cycle with the end of its stretch, so that a machine takes equal rows in once. The end is that of a run,
    /// so the next stretch may have an equal row.
    pub fn stretch_at(&self, cycle: u64) -> Stretch<'_, R>
        requires begins { self.now.0 ≤ cycle }
        requires ends { cycle < self.now.0 + length self.now.1 }
        ensures after { cycle < result.end }
        ensures within { result.end ≤ self.now.0 + length self.now.1 }
        ensures rows { (t b : ℕ) → cycle ≤ t → t < result.end → t < b → between self.now t b ≡ result.row.now ∷ between self.now (t + 1) b }
    {
        let runs: &[RowRun<R>] = &self.runs;
        let index = run_at(self.start, runs, cycle);
        let run = &runs[index];
        Stretch {
            row: &run.row,
            end: run.end,
        }
    }

    /// The row of a cycle.
    pub fn row_at(&self, cycle: u64) -> &R
        requires begins { self.now.0 ≤ cycle }
        requires ends { cycle < self.now.0 + length self.now.1 }
        ensures { (b : ℕ) → cycle < b → between self.now cycle b ≡ result.now ∷ between self.now (cycle + 1) b }
    {
        self.stretch_at(cycle).row
    }

    /// The rows of the cycles from `a` to `b` - 1, shared.
    pub fn part(&self, alloc: Global, a: u64, b: u64) -> Result<RowRuns<R>, NoMemory>
        requires { Covers self.now a b }
        ensures { IfOk result (λ r. r ≡ (a, between self.now a b)) }
    {
        share_between(alloc, self.start, &self.runs, a, b)
    }
}
