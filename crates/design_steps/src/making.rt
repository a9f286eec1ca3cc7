// How a program is made of a linked design.
ghost use Rattle.std.specs.Prelude.{◌≡◌, [], map, IfOk, OnOk};
ghost use Rattle.typed_ir.specs.Statements.{stmt_of, sequence_of};
ghost use Rattle.design_steps.specs.Statements.{stmt_code};
ghost use Rattle.design_steps.specs.Nodes.{nodes_code};
ghost use Rattle.design_steps.specs.Views.{plan_of};
ghost use Rattle.design_steps.specs.Layings.{clocking_plan};
ghost use Rattle.design_steps.specs.Moves.{moved_step};
ghost use Rattle.design_steps.specs.Programs.{IsProgramOf, kept_nodes};

use crate::design_layout::{free_from, layout_of, nexts_of};
use crate::gathering::places_of;
use crate::layout::Layout;
use crate::moving::moved_step;
use crate::nodes::lay_nodes;
use crate::program::Program;
use crate::sharing::kept_of;
use crate::statements::lay_sequence;
use crate::words::{beginning_of, greatest_of};
use ls_text::NoMemory;
use std::alloc::Global;
use std::collections::VecDeque;
use std::mem::swap;
use typed_ir::Linked;
use word_steps::Step;

// The steps in a list, over words that are moved.
fn listed(alloc: Global, steps: VecDeque<Step>, places: &[u32]) -> Result<Vec<Step>, NoMemory>
    ensures { IfOk result (λ list. list.items ≡ map (moved_step places.now) steps.items) }
{
    let mut steps = steps;
    let mut list = Vec::with_capacity(alloc, steps.len())?;
    'taking: while let Some(step) = steps.pop_front() {
        list.push(moved_step(places, step))?;
    }
    Ok(list)
}

// The steps of the nodes that leave something to do, in their order.
fn settling_of(
    alloc: Global,
    linked: &Linked,
    layout: &Layout,
    mark: u32,
    places: &[u32],
) -> Result<Vec<Step>, NoMemory>
    ensures { IfOk result (λ list. list.items ≡ map (moved_step places.now) (nodes_code (plan_of layout.now) (kept_nodes layout.now linked.now) mark)) }
{
    let order = kept_of(alloc, linked, &layout.widths, &layout.slots)?;
    let mut first = Vec::new(alloc);
    let mut steps = VecDeque::new(alloc);
    lay_nodes(
        &linked.design.nodes,
        &order,
        layout,
        mark,
        &mut first,
        &mut steps,
    )?;
    listed(alloc, steps, places)
}

// The steps of the clocked blocks by a layout.
fn blocks_of(
    alloc: Global,
    linked: &Linked,
    layout: &Layout,
    mark: u32,
    places: &[u32],
) -> Result<Vec<Step>, NoMemory>
    ensures { IfOk result (λ list. list.items
        ≡ map (moved_step places.now) (stmt_code (plan_of layout.now) (sequence_of (map stmt_of linked.now.design.clocked.items)) mark)) }
{
    let mut first = Vec::new(alloc);
    let mut steps = VecDeque::new(alloc);
    lay_sequence(&linked.design.clocked, layout, mark, &mut first, &mut steps)?;
    listed(alloc, steps, places)
}

// The steps of the clocked blocks, which put next values where no node does. The layout is as it was.
fn clocking_of(
    alloc: Global,
    linked: &Linked,
    layout: &mut Layout,
    mark: u32,
    places: &[u32],
) -> Result<Vec<Step>, NoMemory>
    ensures steps { IfOk result (λ list. list.items
        ≡ map (moved_step places.now) (stmt_code (clocking_plan layout.old) (sequence_of (map stmt_of linked.now.design.clocked.items)) mark)) }
    ensures layout { OnOk result (layout.new ≡ layout.old) }
{
    let mut nexts = nexts_of(alloc, layout)?;
    swap(&mut layout.nexts, &mut nexts);
    let steps = blocks_of(alloc, linked, layout, mark, places)?;
    swap(&mut layout.nexts, &mut nexts);
    Ok(steps)
}

/// The program of a linked design. Want of memory, and a place or a number of steps above the largest number, is `NoMemory`.
pub fn program_of(alloc: Global, linked: &Linked) -> Result<Program, NoMemory>
    ensures { IfOk result (λ p. IsProgramOf p linked.now) }
{
    let mut layout = layout_of(alloc, linked)?;
    let mark = free_from(&layout)?;
    let places = places_of(alloc, &linked.design.registers, linked.design.signals.len())?;
    let settling = settling_of(alloc, linked, &layout, mark, &places)?;
    let clocking = clocking_of(alloc, linked, &mut layout, mark, &places)?;
    let last = greatest_of(&clocking, greatest_of(&settling, mark));
    let count = last as usize + 1;
    let beginning = beginning_of(alloc, &layout, count)?;
    Ok(Program {
        layout,
        places,
        settling,
        clocking,
        beginning,
    })
}
