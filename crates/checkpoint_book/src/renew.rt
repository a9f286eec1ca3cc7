// The marks of a reload: those up to a limit are carried over, those after it are simulated.
ghost use Rattle.std.specs.Prelude.{◌≡◌, ℕ, ◌<◌, ◌≤◌, ◌+◌, ◌-◌, ◌*◌, ◌++◌, [], List, length, take, drop, vec_capacity, IfOk, OnOk, All};
ghost use Rattle.machine.specs.Rows.{Covers};
ghost use Rattle.book_history.specs.Book.{last_state, last_cycle, chosen, cycles, simulated};
ghost use Rattle.checkpoint_book.specs.Grid.{AgreeFrom};
ghost use Rattle.checkpoint_book.specs.Renew.{kept_count, carried_over, Rises};

use crate::grow::last;
use book_history::link::Link;
use book_history::segment::Segment;
use ls_text::NoMemory;
use machine::Machine;
use machine::row_runs::RowRuns;
use machine::steps::Steps;
use std::alloc::Global;
use std::sync::ledger::Ledger;

/// How many links end at most at the limit, and the cycle of the last mark among theirs.
pub fn choose<S>(segs: &[Segment<S>], limit: u64) -> (usize, u64)
    ensures within { result.0 ≤ length segs.now }
    ensures count { result.0 ≡ kept_count limit segs.now }
    ensures cycle { result.1 ≡ chosen limit 0 segs.now }
{
    let mut cycle = 0;
    for i in 0..segs.len() {
        let to = segs[i].to;
        if to > limit {
            return (i, cycle);
        }
        cycle = to;
    }
    (segs.len(), cycle)
}

// The state carried over into the new machine, which shares what it can with the last mark that was carried over.
fn carry_near<M: Machine>(
    alloc: Global,
    old: &M,
    new: &M,
    ops: &M::Ops,
    state: &M::State,
    renewed: &[Segment<M::State>],
) -> Result<M::State, NoMemory>
    requires ops { M.valid old.now new.now ops.now }
    requires fits { M.fits old.now state.now }
    ensures { IfOk result (λ s. s ≡ M.kit.carried old.now new.now ops.now state.now) }
{
    let mut carried = new.carry(alloc, old, ops, state)?;
    if let Some(near) = renewed.last() {
        new.share_parts(&mut carried, &near.state);
    }
    Ok(carried)
}

/// The marks carried over into the new machine, with open links.
pub fn carry_over<M: Machine>(
    alloc: Global,
    old: &M,
    new: &M,
    ops: &M::Ops,
    segs: &[Segment<M::State>],
    renewed: &mut Vec<Segment<M::State>>,
) -> Result<(), NoMemory>
    requires ops { M.valid old.now new.now ops.now }
    requires fit { All (λ g. M.fits old.now g.state) segs.now }
    requires room { length renewed.old.items + length segs.now ≤ vec_capacity renewed.old }
    ensures capacity { vec_capacity renewed.new ≡ vec_capacity renewed.old }
    ensures items { OnOk result (renewed.new.items ≡ renewed.old.items ++ carried_over M.kit old.now new.now ops.now segs.now) }
{
    for seg in segs {
        let state = carry_near(alloc, old, new, ops, &seg.state, renewed)?;
        renewed.push_reserved(Segment {
            link: Link::Open,
            to: seg.to,
            state,
        });
    }
    Ok(())
}

/// The marks at these links' ends, simulated from the last renewed mark, which is at cycle `from`.
pub fn simulate<M: Machine, L: Ledger>(
    alloc: Global,
    machine: &M,
    rows: &RowRuns<M::Row>,
    first: &M::State,
    segs: &[Segment<M::State>],
    renewed: &mut Vec<Segment<M::State>>,
    from: u64,
    steps: &mut Steps<L>,
) -> Result<(), NoMemory>
    requires rises { Rises from segs.now }
    requires covers { Covers rows.now from (last_cycle from segs.now) }
    requires fit { M.fits machine.now (last_state first.now renewed.old.items) }
    requires room { length renewed.old.items + length segs.now ≤ vec_capacity renewed.old }
    ensures capacity { vec_capacity renewed.new ≡ vec_capacity renewed.old }
    ensures items { OnOk result ((all : List M.Row) → AgreeFrom from (last_cycle from segs.now) rows.now all
        → renewed.new.items ≡ renewed.old.items ++ simulated M.kit machine.now all from (last_state first.now renewed.old.items) (cycles segs.now)) }
    ensures taken { OnOk result (steps.new ≡ steps.old + (last_cycle from segs.now - from) * M.work machine.now) }
    ensures rises { steps.old ≤ steps.new }
    ensures most { steps.new ≤ steps.old + (last_cycle from segs.now - from) * M.work machine.now }
{
    let mut at = from;
    for seg in segs {
        let to = seg.to;
        let state = machine.advance(alloc, rows, last(first, renewed), at, to, steps)?;
        renewed.push_reserved(Segment {
            link: Link::Joined,
            to,
            state,
        });
        at = to;
    }
    Ok(())
}

/// The marks under the new machine: the kept ones carried over, the later ones simulated from the last of these. It takes
/// room for just these.
pub fn renew_segs<M: Machine, L: Ledger>(
    alloc: Global,
    old: &M,
    new: &M,
    ops: &M::Ops,
    first: &M::State,
    kept: &[Segment<M::State>],
    later: &[Segment<M::State>],
    rows: &RowRuns<M::Row>,
    from: u64,
    steps: &mut Steps<L>,
) -> Result<Vec<Segment<M::State>>, NoMemory>
    requires ops { M.valid old.now new.now ops.now }
    requires fit { All (λ g. M.fits old.now g.state) kept.now }
    requires last { M.fits new.now (last_state first.now (carried_over M.kit old.now new.now ops.now kept.now)) }
    requires rises { Rises from later.now }
    requires covers { Covers rows.now from (last_cycle from later.now) }
    requires few { length kept.now + length later.now < 1024 }
    ensures items { IfOk result (λ v. (all : List M.Row) → AgreeFrom from (last_cycle from later.now) rows.now all
        → v.items ≡ carried_over M.kit old.now new.now ops.now kept.now ++ simulated M.kit new.now all from (last_state first.now (carried_over M.kit old.now new.now ops.now kept.now)) (cycles later.now)) }
    ensures taken { OnOk result (steps.new ≡ steps.old + (last_cycle from later.now - from) * M.work new.now) }
    ensures rises { steps.old ≤ steps.new }
    ensures most { steps.new ≤ steps.old + (last_cycle from later.now - from) * M.work new.now }
{
    let mut segs = Vec::with_capacity(alloc, kept.len() + later.len())?;
    carry_over(alloc, old, new, ops, kept, &mut segs)?;
    simulate(alloc, new, rows, first, later, &mut segs, from, steps)?;
    Ok(segs)
}
