// Rows of one design, and its registers after some cycles.
ghost use Rattle.std.specs.Prelude.{◌≡◌, ◌<◌, IfOk};
ghost use Rattle.machine.specs.Rows.{Covers};

use crate::designs::design_in;
use cycle_eval::Design;
use ls_text::NoMemory;
use machine::Machine;
use machine::row_run::RowRun;
use machine::row_runs::RowRuns;
use machine::steps::Steps;
use row_tables::push_hex;
use state_layout::SlotState;
use std::alloc::Global;
use std::marker::Brand;
use std::sync::Arc;
use std::sync::ledger::{Blank, Ledger};
use stimulus::Row;
use typed_ir::RegisterId;

/// The values of a state, in hexadecimal, with spaces between them.
pub fn push_state(out: &mut Vec<u8>, state: &SlotState) -> Result<(), NoMemory> {
    for i in 0..state.len() {
        if i > 0 {
            out.push(b' ')?;
        }
        push_hex(out, state.read(RegisterId(i)).value(), 0)?;
    }
    Ok(())
}

// So many rows from cycle 0 on, which set nothing.
fn rows(alloc: Global, cycles: u64) -> Result<RowRuns<Row>, NoMemory>
    ensures { IfOk result (λ r. Covers r 0 cycles) }
{
    let mut runs = Vec::new(alloc);
    runs.push(RowRun {
        start: 0,
        end: cycles,
        row: Arc::new(alloc, Row::new(alloc))?,
    })?;
    RowRuns::new(0, cycles, runs)
}

// The state after so many cycles from the beginning.
fn state_after<L: Ledger>(
    alloc: Global,
    design: &Design,
    cycles: u64,
    blank: Blank,
) -> Result<SlotState, NoMemory>
    requires name { blank.name ≡ L.name }
    requires parts { blank.parts ≡ L.parts }
    requires some { 0 < blank.parts }
{
    let mut steps = Steps::<L>::start(blank);
    let rows = rows(alloc, cycles)?;
    let start = design.reset(alloc)?;
    design.advance(alloc, &rows, &start, 0, cycles, &mut steps)
}

// The same with a counter of its own.
fn after(alloc: Global, design: &Design, cycles: u64) -> Result<SlotState, NoMemory> {
    state_after::<Brand>(alloc, design, cycles, Blank::new(1))
}

// The registers of a design after each of these numbers of cycles.
fn states(alloc: Global, design: &Design, all: &[u64]) -> Result<Vec<u8>, NoMemory> {
    let mut out = Vec::new(alloc);
    for cycles in all {
        if !out.is_empty() {
            out.extend_from_slice(b", ")?;
        }
        let state = after(alloc, design, *cycles)?;
        push_state(&mut out, &state)?;
    }
    Ok(out)
}

/// The registers of a row's design after each of its numbers of cycles, with commas between them.
pub fn registers(alloc: Global, text: &[u8]) -> Result<Vec<u8>, NoMemory> {
    match design_in(alloc, text)? {
        Some((design, cycles)) => states(alloc, &design, &cycles),
        None => Ok(Vec::new(alloc)),
    }
}
