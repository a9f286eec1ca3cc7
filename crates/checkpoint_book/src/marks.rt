// The marks of a run that come behind those of the book.
ghost use Rattle.std.specs.Prelude.{◌≡◌, ℕ, ◌<◌, ◌≤◌, ◌+◌, ◌-◌, ◌*◌, leb, List, length, IfOk, OnOk};
ghost use Rattle.machine.specs.Rows.{Covers};
ghost use Rattle.book_history.specs.Book.{last_state, simulated, grid};
ghost use Rattle.checkpoint_book.specs.Grid.{AgreeFrom};

use crate::grow::{last, next_cycle};
use book_history::link::Link;
use book_history::segment::Segment;
use ls_text::NoMemory;
use machine::Machine;
use machine::row_runs::RowRuns;
use machine::steps::Steps;
use std::alloc::Global;
use std::sync::ledger::Ledger;

/// Whether the marks of a run make no 1,025 with those that are there. No more marks than these are counted.
pub fn stay_few(links: usize, interval: u64, c: u64, end: u64) -> bool
    requires interval { 1 ≤ interval }
    requires few { links < 1024 }
    requires rises { c ≤ end }
    ensures { result ≡ leb (links + 1 + length (grid interval c (end - c))) 1024 }
{
    let mut count = links;
    let mut at = c;
    while at < end {
        count += 1;
        if count == 1024 {
            return false;
        }
        at = next_cycle(interval, at, end);
    }
    true
}

/// The marks up to cycle `end`, from the last one, at cycle `c` with the state `from`.
pub fn more_marks<M: Machine, L: Ledger>(
    alloc: Global,
    machine: &M,
    rows: &RowRuns<M::Row>,
    interval: u64,
    from: &M::State,
    c: u64,
    end: u64,
    steps: &mut Steps<L>,
) -> Result<Vec<Segment<M::State>>, NoMemory>
    requires interval { 1 ≤ interval }
    requires covers { Covers rows.now c end }
    requires fit { M.fits machine.now from.now }
    ensures taken { OnOk result (steps.new ≡ steps.old + (end - c) * M.work machine.now) }
    ensures rises { steps.old ≤ steps.new }
    ensures most { steps.new ≤ steps.old + (end - c) * M.work machine.now }
    ensures items { IfOk result (λ v. (all : List M.Row) → AgreeFrom c end rows.now all
        → v.items ≡ simulated M.kit machine.now all c from.now (grid interval c (end - c))) }
{
    let mut marks = Vec::new(alloc);
    let mut at = c;
    while at < end {
        let next = next_cycle(interval, at, end);
        let state = machine.advance(alloc, rows, last(from, &marks), at, next, steps)?;
        marks.push(Segment {
            link: Link::Joined,
            to: next,
            state,
        })?;
        at = next;
    }
    Ok(marks)
}
