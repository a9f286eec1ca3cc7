// The layout of a design: where its signals, their next values and its constants stand.
ghost use Rattle.std.specs.Prelude.{◌≡◌, ◌≤◌, ◌+◌, ◌-◌, ◌^◌, IfOk, OnOk, length, map};
ghost use Rattle.std.specs.List.{range_with_len};
ghost use Rattle.typed_ir.specs.Flats.{signal_widths};
ghost use Rattle.typed_ir.specs.FlatNodes.{node_of};
ghost use Rattle.typed_ir.specs.Statements.{stmt_of, sequence_of};
ghost use Rattle.design_steps.specs.Statements.{stmt_constants};
ghost use Rattle.design_steps.specs.Pooled.{Holds, nodes_constants};
ghost use Rattle.design_steps.specs.Layings.{LaysOut, mark_of};

use crate::constant_walk::{pool_all, pool_nodes};
use crate::constants::Constants;
use crate::layout::Layout;
use crate::sharing::slots_of;
use indexmap::IndexSet;
use ls_text::NoMemory;
use std::alloc::Global;
use typed_ir::{Linked, Node, Signal, Stmt};

// So many numbers from one on.
#[tactic(auto, using(crate::proofs::Counting::run_push))]
pub(crate) fn counted(alloc: Global, from: u32, count: u32) -> Result<Vec<u32>, NoMemory>
    requires { from + count ≤ 2 ^ 32 - 1 }
    ensures { IfOk result (λ xs. xs.items ≡ range_with_len from count) }
{
    let mut places = Vec::with_capacity(alloc, count as usize)?;
    let mut i = 0;
    'counting: while i < count {
        places.push(from + i)?;
        i += 1;
    }
    Ok(places)
}

// The widths of signals.
fn widths_of(alloc: Global, signals: &[Signal]) -> Result<Vec<u8>, NoMemory>
    ensures { IfOk result (λ ws. ws.items ≡ signal_widths signals.now) }
{
    let mut widths = Vec::with_capacity(alloc, signals.len())?;
    for signal in signals {
        widths.push(signal.width)?;
    }
    Ok(widths)
}

// The constants of nodes and clocked blocks.
fn pool_of(nodes: &[Node], blocks: &[Stmt], pool: &mut IndexSet<u128>) -> Result<(), NoMemory>
    ensures nodes { OnOk result (Holds pool.old.keys pool.new.keys (nodes_constants (map node_of nodes.now))) }
    ensures blocks { OnOk result (Holds pool.old.keys pool.new.keys (stmt_constants (sequence_of (map stmt_of blocks.now)))) }
{
    pool_nodes(nodes, pool)?;
    pool_all(blocks, pool)
}

/// The layout of a design: signals stand from the place 1 on, wires where the signal does of which they are only another name. Behind them
/// are as many places for the next values of clocked blocks, then as many for those that nodes put, then two words for each register, to
/// which `places_of` moves it and its next value, and then the constants. Want of memory, and a place above the largest number, is
/// `NoMemory`.
pub fn layout_of(alloc: Global, linked: &Linked) -> Result<Layout, NoMemory>
    ensures { IfOk result (λ l. LaysOut l linked.now.design) }
{
    let design = &linked.design;
    if design.signals.len() > 0x2fff_ffff || design.registers.len() > 0x2fff_ffff {
        return Err(NoMemory);
    }
    let count = design.signals.len() as u32;
    let registers = design.registers.len() as u32;
    let widths = widths_of(alloc, &design.signals)?;
    let slots = slots_of(alloc, linked, counted(alloc, 1, count)?, &widths)?;
    let nexts = counted(alloc, 2 * count + 1, count)?;
    let mut values = IndexSet::new(alloc);
    pool_of(&design.nodes, &design.clocked, &mut values)?;
    Ok(Layout {
        slots,
        nexts,
        widths,
        constants: Constants {
            first: 3 * count + 2 * registers + 1,
            values,
        },
    })
}

/// Where clocked blocks put next values: right behind all signals. Want of memory, and a place above the largest number, is `NoMemory`.
pub fn nexts_of(alloc: Global, layout: &Layout) -> Result<Vec<u32>, NoMemory>
    ensures { IfOk result (λ xs. xs.items ≡ range_with_len (length layout.now.widths.items + 1) (length layout.now.widths.items)) }
{
    if layout.widths.len() > 0x7fff_fffe {
        return Err(NoMemory);
    }
    let count = layout.widths.len() as u32;
    counted(alloc, count + 1, count)
}

/// The first place behind all that a layout has: places from there on are free. One above the largest number is `NoMemory`.
pub fn free_from(layout: &Layout) -> Result<u32, NoMemory>
    ensures { IfOk result (λ mark. mark ≡ mark_of layout.now) }
{
    let count = layout.constants.values.len();
    if count > 0x7fff_fffe {
        return Err(NoMemory);
    }
    layout
        .constants
        .first
        .checked_add(count as u32 + 1)
        .ok_or(NoMemory)
}
