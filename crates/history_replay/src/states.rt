// States of designs: reset, advanced over the record, carried into the next version, and compared.
ghost use Rattle.std.specs.Prelude.{◌≡◌, ◌<◌, true, IfOk};
ghost use Rattle.std.specs.Arc.{arc_value};
ghost use Rattle.machine.specs.Rows.{Covers};
ghost use Rattle.cycle_eval.specs.Designs.{design_flat};
ghost use Rattle.cycle_eval.specs.Kits.{IsValid};

use crate::own_state::OwnState;
use book_history::version::Version;
use cycle_eval::Design;
use ls_text::NoMemory;
use machine::Machine;
use machine::row_runs::RowRuns;
use machine::steps::Steps;
use reg_ops::RegOps;
use reg_transform::{OpRefusal, check};
use std::alloc::Global;
use std::marker::Brand;
use std::sync::Arc;
use std::sync::ledger::{Blank, Ledger};
use stimulus::Row;

/// The reset state of a version's design.
pub fn reset(alloc: Global, version: &Arc<Version<Design>, Global>) -> Result<OwnState, NoMemory> {
    let state = version.machine.reset(alloc)?;
    Ok(OwnState {
        version: Arc::try_clone(version)?,
        state,
    })
}

/// The same state once more.
pub fn share(alloc: Global, own: &OwnState) -> Result<OwnState, NoMemory> {
    let state = own.version.machine.share(alloc, &own.state)?;
    Ok(OwnState {
        version: Arc::try_clone(&own.version)?,
        state,
    })
}

/// Whether two states are the same.
pub fn same(one: &OwnState, other: &OwnState) -> bool {
    one.version.machine.same(&one.state, &other.state)
}

// The state at cycle `b`, with a counter of steps of its own.
fn counted<L: Ledger>(
    alloc: Global,
    rows: &RowRuns<Row>,
    from: &OwnState,
    a: u64,
    b: u64,
    blank: Blank,
) -> Result<OwnState, NoMemory>
    requires covers { Covers rows.now a b }
    requires name { blank.name ≡ L.name }
    requires parts { blank.parts ≡ L.parts }
    requires some { 0 < blank.parts }
{
    let mut steps = Steps::<L>::start(blank);
    let design: &Design = &*from.version.machine;
    let state = design.advance(alloc, rows, &from.state, a, b, &mut steps)?;
    Ok(OwnState {
        version: Arc::try_clone(&from.version)?,
        state,
    })
}

/// The state at cycle `b`, from this one at cycle `a`, or none where a cycle between has no row.
pub fn advanced(
    alloc: Global,
    rows: &RowRuns<Row>,
    from: &OwnState,
    a: u64,
    b: u64,
) -> Result<Option<OwnState>, NoMemory> {
    if a < rows.start() || b < a || rows.end() < b {
        return Ok(None);
    }
    let own = counted::<Brand>(alloc, rows, from, a, b, Blank::new(1))?;
    Ok(Some(own))
}

/// Whether operations hold between the registers of an old design and those of a new one.
pub fn are_valid(alloc: Global, old: &Design, new: &Design, ops: &RegOps) -> Result<bool, NoMemory>
    ensures { IfOk result (λ valid. valid ≡ true → IsValid ops.now (design_flat old.now) (design_flat new.now)) }
{
    match check(alloc, &old.regs(), &new.regs(), ops.as_slice()) {
        Ok(()) => Ok(true),
        Err(OpRefusal::Breaks(_)) => Ok(false),
        Err(OpRefusal::NoMemory) => Err(NoMemory),
    }
}

/// The state under the next version, or none where the operations don't hold.
pub fn carried(
    alloc: Global,
    from: &OwnState,
    version: &Arc<Version<Design>, Global>,
    ops: &RegOps,
) -> Result<Option<OwnState>, NoMemory> {
    let old: &Design = &*from.version.machine;
    let new: &Design = &*version.machine;
    if !are_valid(alloc, old, new, ops)? {
        return Ok(None);
    }
    let state = new.carry(alloc, old, ops, &from.state)?;
    Ok(Some(OwnState {
        version: Arc::try_clone(version)?,
        state,
    }))
}
