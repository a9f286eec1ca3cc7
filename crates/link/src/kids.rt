// Instances with their units to the first signals of the instances that stand in each.
ghost use Rattle.std.specs.Prelude.{◌≡◌, ◌++◌, ◌∷◌, [], ◌+◌, ◌<◌, ℕ, IfOk, length, if◌then◌else◌};
ghost use Rattle.typed_ir.specs.Rows.{row_in};
ghost use Rattle.typed_ir.specs.Shapes.{stands_in};
ghost use Rattle.link.specs.Copies.{kids_in};
ghost use Rattle.link.specs.Listings.{entries_of, all_parts};

use ls_text::NoMemory;
use std::alloc::Global;
use std::sync::Arc;
use typed_ir::{Instance, InstanceId, Unit, UnitSignal};

/// The number that lies a list's length behind another. Past the largest number there is no memory.
pub fn behind_all(first: u32, signals: &[UnitSignal]) -> Result<u32, NoMemory>
    ensures { IfOk result (λ n. n ≡ first + length signals.now) }
{
    if signals.len() > (u32::MAX - first) as usize {
        return Err(NoMemory);
    }
    Ok(first + signals.len() as u32)
}

// So many empty rows.
fn empty_rows(alloc: Global, count: usize) -> Result<Vec<Vec<u32>>, NoMemory>
    ensures length { IfOk result (λ rows. length rows.items ≡ count) }
    ensures empty { IfOk result (λ rows. (k : ℕ) → row_in rows.items k ≡ []) }
{
    let mut rows = Vec::new(alloc);
    for _instance in 0..count {
        rows.push(Vec::new(alloc))?;
    }
    Ok(rows)
}

// One more instance in the one that it stands in.
fn note_kid(rows: &mut [Vec<u32>], parent: Option<InstanceId>, first: u32) -> Result<(), NoMemory>
    ensures { IfOk result (λ _. (k : ℕ) → k < length rows.old
        → row_in rows.new k ≡ row_in rows.old k ++ (if stands_in k parent then first ∷ [] else [])) }
{
    let Some(parent) = parent else {
        return Ok(());
    };
    let index = parent.index();
    if index < rows.len() {
        rows[index].push(first)?;
    }
    Ok(())
}

// All instances in those that they stand in.
fn note_kids(
    rows: &mut [Vec<u32>],
    instances: &[Instance],
    units: &[Arc<Unit, Global>],
) -> Result<(), NoMemory>
    ensures { IfOk result (λ _. (k : ℕ) → k < length rows.old
        → row_in rows.new k ≡ row_in rows.old k ++ kids_in k 0 (entries_of instances.now (all_parts units.now))) }
{
    let mut first = 0u32;
    let mut rest = units;
    for x in instances {
        let Some((unit, later)) = rest.split_first() else {
            return Ok(());
        };
        note_kid(rows, x.place.parent, first)?;
        first = behind_all(first, &unit.parts.signals)?;
        rest = later;
    }
    Ok(())
}

/// The first signals of the instances that stand in each instance of a table, in their order.
pub fn kids_of(
    alloc: Global,
    instances: &[Instance],
    units: &[Arc<Unit, Global>],
) -> Result<Vec<Vec<u32>>, NoMemory>
    ensures { IfOk result (λ rows. (k : ℕ) → k < length instances.now
        → row_in rows.items k ≡ kids_in k 0 (entries_of instances.now (all_parts units.now))) }
{
    let mut rows = empty_rows(alloc, instances.len())?;
    note_kids(&mut rows, instances, units)?;
    Ok(rows)
}

/// A row of a table; an empty one where there is none.
pub fn row_at(rows: &[Vec<u32>], k: usize) -> &[u32]
    ensures { result.now ≡ row_in rows.now k }
{
    if k >= rows.len() {
        return &[];
    }
    &rows[k]
}
