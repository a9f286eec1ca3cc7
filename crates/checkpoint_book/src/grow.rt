// New marks of a run, thinned where they make 1,025.
ghost use Rattle.std.specs.Prelude.{◌≡◌, ℕ, ◌<◌, ◌≤◌, ◌+◌, ◌-◌, ◌*◌, ◌++◌, List, length, take, vec_capacity, leb, not, IfOk, OnOk};
ghost use Rattle.machine.specs.Rows.{Covers};
ghost use Rattle.book_history.specs.Book.{both, thin as thinned, add_mark, last_state, extend as extended, grid};
ghost use Rattle.checkpoint_book.specs.Grid.{next_mark, AgreeFrom};
ghost use Rattle.checkpoint_book.specs.Growth.{grown_to, is_all};

use crate::growth::Growth;
use crate::marks::{more_marks, stay_few};
use crate::opened::Opened;
use book_history::link::Link;
use book_history::segment::Segment;
use ls_text::NoMemory;
use machine::Machine;
use machine::row_runs::RowRuns;
use machine::steps::Steps;
use std::alloc::Global;
use std::sync::ledger::Ledger;

/// The link that two links become.
fn merge(g: Link, h: Link) -> Link
    ensures { result ≡ both g h }
{
    match g {
        Link::Joined => match h {
            Link::Joined => Link::Joined,
            _ => Link::Open,
        },
        _ => Link::Open,
    }
}

/// Brings the marks that stay to the front, in order, with merged links: how many they are.
fn squeeze<S>(segs: &mut [Segment<S>]) -> usize
    ensures kept { take result segs.new ≡ thinned segs.old }
    ensures len { length segs.new ≡ length segs.old }
{
    let mut k = 0;
    while 2 <= segs.len() - 2 * k {
        let link = merge(segs[2 * k].link, segs[2 * k + 1].link);
        segs.swap(k, 2 * k + 1);
        segs[k].link = link;
        k += 1;
    }
    if 2 * k < segs.len() {
        segs.swap(k, 2 * k);
        return k + 1;
    }
    k
}

/// Takes out the marks of odd index, in place and in time linear in their number.
pub fn thin<S: Drop>(segs: &mut Vec<Segment<S>>)
    ensures items { segs.new.items ≡ thinned segs.old.items }
    ensures capacity { vec_capacity segs.new ≡ vec_capacity segs.old }
{
    let kept = squeeze(segs);
    segs.truncate(kept);
}

/// The next mark's cycle.
pub fn next_cycle(interval: u64, at: u64, end: u64) -> u64
    requires interval { 1 ≤ interval }
    requires before { at < end }
    ensures value { result ≡ next_mark interval at end }
    ensures after { at < result }
    ensures within { result ≤ end }
{
    let step = interval - at % interval;
    if step < end - at { at + step } else { end }
}

/// The last mark's state.
pub fn last<'a, S>(first: &'a S, segs: &'a [Segment<S>]) -> &'a S
    ensures { result.now ≡ last_state first.now segs.now }
{
    if segs.is_empty() {
        first
    } else {
        &segs[segs.len() - 1].state
    }
}

/// One mark more, and thinned where there are 1,025.
fn add<S: Drop>(segs: &mut Vec<Segment<S>>, seg: Segment<S>)
    requires few { length segs.old.items < 1024 }
    requires room { 1024 ≤ vec_capacity segs.old }
    ensures items { segs.new.items ≡ add_mark segs.old.items seg }
    ensures capacity { vec_capacity segs.new ≡ vec_capacity segs.old }
{
    segs.push_reserved(seg);
    if segs.len() == 1024 {
        thin(segs);
    }
}

/// Marks from the last one, at cycle `c`, up to cycle `end`.
pub fn extend<M: Machine, L: Ledger>(
    alloc: Global,
    machine: &M,
    rows: &RowRuns<M::Row>,
    interval: u64,
    first: &M::State,
    segs: &mut Vec<Segment<M::State>>,
    c: u64,
    end: u64,
    steps: &mut Steps<L>,
) -> Result<(), NoMemory>
    requires interval { 1 ≤ interval }
    requires covers { Covers rows.now c end }
    requires fit { M.fits machine.now (last_state first.now segs.old.items) }
    requires few { length segs.old.items < 1024 }
    requires room { 1024 ≤ vec_capacity segs.old }
    ensures taken { OnOk result (steps.new ≡ steps.old + (end - c) * M.work machine.now) }
    ensures rises { steps.old ≤ steps.new }
    ensures most { steps.new ≤ steps.old + (end - c) * M.work machine.now }
    ensures few { length segs.new.items < 1024 }
    ensures room { 1024 ≤ vec_capacity segs.new }
    ensures items { OnOk result ((all : List M.Row) → AgreeFrom c end rows.now all
        → segs.new.items ≡ extended M.kit machine.now all segs.old.items c (last_state first.now segs.old.items) (grid interval c (end - c))) }
{
    let mut at = c;
    while at < end {
        let next = next_cycle(interval, at, end);
        let state = machine.advance(alloc, rows, last(first, segs), at, next, steps)?;
        let seg = Segment {
            link: Link::Joined,
            to: next,
            state,
        };
        add(segs, seg);
        at = next;
    }
    Ok(())
}

/// The same links and marks, each state shared, with places for 1,024.
fn share_segs<M: Machine>(
    alloc: Global,
    machine: &M,
    segs: &[Segment<M::State>],
) -> Result<Vec<Segment<M::State>>, NoMemory>
    requires few { length segs.now < 1024 }
    ensures items { IfOk result (λ v. v.items ≡ segs.now) }
    ensures room { IfOk result (λ v. 1024 ≤ vec_capacity v) }
{
    let mut shared = Vec::with_capacity(alloc, 1024)?;
    for seg in segs {
        let state = machine.share(alloc, &seg.state)?;
        shared.push_reserved(Segment {
            link: seg.link,
            to: seg.to,
            state,
        });
    }
    Ok(shared)
}

/// The links and marks after a run from cycle `c`, where the last mark stands, to cycle `end`: those of the book shared, the
/// new ones behind them, and thinned where there are 1,025.
fn thinned_marks<M: Machine, L: Ledger>(
    alloc: Global,
    o: &Opened<M, M::State>,
    rows: &RowRuns<M::Row>,
    interval: u64,
    c: u64,
    end: u64,
    steps: &mut Steps<L>,
) -> Result<Vec<Segment<M::State>>, NoMemory>
    requires interval { 1 ≤ interval }
    requires covers { Covers rows.now c end }
    requires fit { M.fits o.now.version.value.machine.value (last_state o.now.first o.now.segs.items) }
    requires few { length o.now.segs.items < 1024 }
    ensures taken { OnOk result (steps.new ≡ steps.old + (end - c) * M.work o.now.version.value.machine.value) }
    ensures rises { steps.old ≤ steps.new }
    ensures most { steps.new ≤ steps.old + (end - c) * M.work o.now.version.value.machine.value }
    ensures few { IfOk result (λ v. length v.items < 1024) }
    ensures items { IfOk result (λ v. (all : List M.Row) → AgreeFrom c end rows.now all
        → v.items ≡ extended M.kit o.now.version.value.machine.value all o.now.segs.items c (last_state o.now.first o.now.segs.items) (grid interval c (end - c))) }
{
    let machine: &M = &*o.version.machine;
    let mut segs = share_segs(alloc, machine, &o.segs)?;
    extend(
        alloc, machine, rows, interval, &o.first, &mut segs, c, end, steps,
    )?;
    Ok(segs)
}

/// What a run from cycle `c`, where the last mark stands, to cycle `end` makes of the links and marks. The marks of the book are
/// shared just where its marks, one more than its links, and those of the run are more than 1,024, so that some are thinned.
pub fn grown<M: Machine, L: Ledger>(
    alloc: Global,
    o: &Opened<M, M::State>,
    rows: &RowRuns<M::Row>,
    interval: u64,
    c: u64,
    end: u64,
    steps: &mut Steps<L>,
) -> Result<Growth<M::State>, NoMemory>
    requires interval { 1 ≤ interval }
    requires covers { Covers rows.now c end }
    requires fit { M.fits o.now.version.value.machine.value (last_state o.now.first o.now.segs.items) }
    requires few { length o.now.segs.items < 1024 }
    ensures taken { OnOk result (steps.new ≡ steps.old + (end - c) * M.work o.now.version.value.machine.value) }
    ensures rises { steps.old ≤ steps.new }
    ensures most { steps.new ≤ steps.old + (end - c) * M.work o.now.version.value.machine.value }
    ensures items { IfOk result (λ v. (all : List M.Row) → AgreeFrom c end rows.now all
        → grown_to v o.now.segs.items ≡ extended M.kit o.now.version.value.machine.value all o.now.segs.items c (last_state o.now.first o.now.segs.items) (grid interval c (end - c))) }
    ensures thins { IfOk result (λ v. is_all v ≡ not (leb (length o.now.segs.items + 1 + length (grid interval c (end - c))) 1024)) }
{
    if !stay_few(o.segs.len(), interval, c, end) {
        let all = thinned_marks(alloc, o, rows, interval, c, end, steps)?;
        return Ok(Growth::All(all));
    }
    let machine: &M = &*o.version.machine;
    let from = last(&o.first, &o.segs);
    let more = more_marks(alloc, machine, rows, interval, from, c, end, steps)?;
    Ok(Growth::More(more))
}
