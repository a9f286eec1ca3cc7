// The units of a tree of instances to the flat design of all.
ghost use Rattle.std.specs.Prelude.{◌≡◌, true, IfOk, List, ℕ, map, length, nat_le};
ghost use Rattle.typed_ir.specs.declared.instance_name.InstanceName.{InstanceName};
ghost use Rattle.typed_ir.specs.Flats.{signal_of, are_within};
ghost use Rattle.typed_ir.specs.FlatNodes.{node_of};
ghost use Rattle.typed_ir.specs.Linkeds.{flat};
ghost use Rattle.typed_ir.specs.Statements.{stmt_of};
ghost use Rattle.typed_ir.specs.Rows.{row_in};
ghost use Rattle.typed_ir.specs.Shapes.{AreOf};
ghost use Rattle.typed_ir.specs.Trees.{Instances, flat_of_tree, signals_at, registers_at, nodes_at, blocks_at};
ghost use Rattle.link.specs.Copies.{all_sized, copied_from, first_inputs, nodes_in, path_at, places_of};
ghost use Rattle.link.specs.Listings.{IsTreeOf, all_parts};

use crate::copies::Copies;
use crate::copying::{add_blocks, add_nodes, add_registers, add_signals};
use crate::kids::{behind_all, kids_of, row_at};
use ls_text::NoMemory;
use std::alloc::Global;
use std::sync::Arc;
use typed_ir::{
    Flat, Instance, InstanceId, InstanceName, InstanceTable, InstanceTree, Node, Signal, SignalId,
    Stmt, Unit,
};

/// Whether the units have at most so many nodes together.
pub fn are_few(units: &[Arc<Unit, Global>], most: usize) -> bool
    ensures { result ≡ nat_le (nodes_in (all_sized (all_parts units.now))) most }
{
    let mut left = most;
    for unit in units {
        match left.checked_sub(unit.parts.nodes.len()) {
            Some(rest) => left = rest,
            None => return false,
        }
    }
    true
}

// The number of an instance. Past the largest number there is no memory.
fn instance_id(k: usize) -> Result<InstanceId, NoMemory>
    ensures { IfOk result (λ id. id ≡ k) }
{
    if k > u32::MAX as usize {
        return Err(NoMemory);
    }
    Ok(InstanceId(k as u32))
}

// What all units give where they stand.
fn copies_of(
    alloc: Global,
    units: &[Arc<Unit, Global>],
    kids: &[Vec<u32>],
) -> Result<Copies, NoMemory>
    ensures signals { IfOk result (λ c. (rows : List InstanceName) → map (signal_of rows) c.signals.items
        ≡ copied_from signals_at (path_at rows) (row_in kids.now) 0 0 (all_sized (all_parts units.now))) }
    ensures there { IfOk result (λ c. are_within c.signals.items (length units.now) ≡ true) }
    ensures registers { IfOk result (λ c. (path : ℕ → List ℕ) → c.registers.items
        ≡ copied_from registers_at path (row_in kids.now) 0 0 (all_sized (all_parts units.now))) }
    ensures nodes { IfOk result (λ c. (path : ℕ → List ℕ) → map node_of c.nodes.items
        ≡ copied_from nodes_at path (row_in kids.now) 0 0 (all_sized (all_parts units.now))) }
    ensures clocked { IfOk result (λ c. (path : ℕ → List ℕ) → map stmt_of c.clocked.items
        ≡ copied_from blocks_at path (row_in kids.now) 0 0 (all_sized (all_parts units.now))) }
{
    let mut signals = Vec::new(alloc);
    let mut registers = Vec::new(alloc);
    let mut nodes = Vec::new(alloc);
    let mut clocked = Vec::new(alloc);
    let mut first = 0u32;
    for i in 0..units.len() {
        let parts = &units[i].parts;
        let instance = instance_id(i)?;
        add_signals(&parts.signals, instance, &mut signals)?;
        add_registers(&parts.registers, first, &mut registers)?;
        add_nodes(alloc, &parts.nodes, first, row_at(kids, i), &mut nodes)?;
        add_blocks(alloc, &parts.clocked, first, &mut clocked)?;
        first = behind_all(first, &parts.signals)?;
    }
    Ok(Copies {
        signals,
        registers,
        nodes,
        clocked,
    })
}

// Where the instances stand, and their names.
fn places_of(alloc: Global, instances: &[Instance]) -> Result<Vec<InstanceName>, NoMemory>
    ensures { IfOk result (λ rows. rows.items ≡ places_of instances.now) }
{
    let mut rows = Vec::new(alloc);
    for x in instances {
        rows.push(x.place)?;
    }
    Ok(rows)
}

// The data inputs of the first unit.
fn first_inputs(alloc: Global, units: &[Arc<Unit, Global>]) -> Result<Vec<SignalId>, NoMemory>
    ensures { IfOk result (λ inputs. inputs.items ≡ first_inputs (all_sized (all_parts units.now))) }
{
    match units.split_first() {
        Some((unit, _)) => Ok(Vec::from_slice(alloc, &unit.parts.inputs)?),
        None => Ok(Vec::new(alloc)),
    }
}

/// The flat design of a tree of instances with these units. Past 2^32 instances, signals or nodes there is no memory.
pub fn flattened(
    alloc: Global,
    tree: &InstanceTree,
    units: &[Arc<Unit, Global>],
) -> Result<Flat, NoMemory>
    requires { AreOf tree.now.instances.items 0 tree.now.instances.items (all_parts units.now) }
    ensures { IfOk result (λ design. (t : Instances) → IsTreeOf tree.now.instances.items (all_parts units.now) t → flat design ≡ flat_of_tree t) }
{
    if !are_few(units, u32::MAX as usize) {
        return Err(NoMemory);
    }
    let rows = places_of(alloc, &tree.instances)?;
    let kids = kids_of(alloc, &tree.instances, units)?;
    let inputs = first_inputs(alloc, units)?;
    let copies = copies_of(alloc, units, &kids)?;
    Ok(Flat {
        instances: InstanceTable { rows },
        signals: copies.signals,
        registers: copies.registers,
        inputs,
        nodes: copies.nodes,
        clocked: copies.clocked,
    })
}
