// Instances to the shapes of those that stand in each.
ghost use Rattle.std.specs.Prelude.{◌≡◌, ◌++◌, ◌∷◌, [], ◌<◌, ℕ, IfOk, OnOk, map, length, if◌then◌else◌};
ghost use Rattle.typed_ir.specs.Rows.{row_in};
ghost use Rattle.typed_ir.specs.Shapes.{shape_of, stands_in};
ghost use Rattle.unit_jobs.specs.Rows.{row_of, rows_from, shapes_in};

use ls_text::NoMemory;
use std::alloc::Global;
use typed_ir::{ChildShape, Instance, InstanceId, PortList};

// An instance, as the one sees it that it stands in.
fn shape_of(alloc: Global, one: &Instance) -> Result<ChildShape, NoMemory>
    ensures { IfOk result (λ shape. shape ≡ shape_of one.now) }
{
    let ports = Vec::from_slice(alloc, one.ports.as_slice())?;
    Ok(ChildShape {
        instance: one.place.name,
        clock: one.clock,
        ports: PortList::new(ports),
    })
}

// So many empty rows.
fn empty_rows(alloc: Global, count: usize) -> Result<Vec<Vec<ChildShape>>, NoMemory>
    ensures length { IfOk result (λ rows. length rows.items ≡ count) }
    ensures empty { IfOk result (λ rows. (k : ℕ) → row_in rows.items k ≡ []) }
{
    let mut rows = Vec::new(alloc);
    for _instance in 0..count {
        rows.push(Vec::new(alloc))?;
    }
    Ok(rows)
}

// One more instance in the one that it stands in.
fn note_child(
    rows: &mut [Vec<ChildShape>],
    parent: Option<InstanceId>,
    shape: ChildShape,
) -> Result<(), NoMemory>
    ensures { OnOk result ((k : ℕ) → k < length rows.old
        → row_in rows.new k ≡ row_in rows.old k ++ (if stands_in k parent then shape ∷ [] else [])) }
{
    let Some(parent) = parent else {
        return Ok(());
    };
    let index = parent.index();
    if index < rows.len() {
        rows[index].push(shape)?;
    }
    Ok(())
}

// All instances in those that they stand in.
#[tactic(auto, using(crate::proofs::Rows::row_step))]
fn note_children(
    alloc: Global,
    rows: &mut [Vec<ChildShape>],
    instances: &[Instance],
) -> Result<(), NoMemory>
    ensures { OnOk result ((k : ℕ) → k < length rows.old → row_in rows.new k ≡ row_in rows.old k ++ shapes_in k instances.now) }
{
    for one in instances {
        let shape = shape_of(alloc, one)?;
        note_child(rows, one.place.parent, shape)?;
    }
    Ok(())
}

/// Of each instance of a list the shapes of those of the list that stand in it, in their order; or want of memory. It is linear in the
/// instances and in their ports.
#[tactic(auto, using(crate::proofs::Rows::rows_all))]
pub fn shapes_within(
    alloc: Global,
    instances: &[Instance],
) -> Result<Vec<Vec<ChildShape>>, NoMemory>
    ensures { IfOk result (λ rows. map row_of rows.items ≡ rows_from instances.now 0 instances.now) }
{
    let mut rows = empty_rows(alloc, instances.len())?;
    note_children(alloc, &mut rows, instances)?;
    Ok(rows)
}
