// The items of a module step by step.
ghost use Rattle.std.specs.Prelude.{◌≡◌, ◌++◌, ◌+◌, [], map, IfOk, OnOk, IfErr};
ghost use Rattle.typed_ir.specs.Items.{item_of};
ghost use Rattle.verilog_ast.specs.Views.{declaration_of};
ghost use Rattle.width_rules.specs.Faults.{IsFirst};
ghost use Rattle.gen_unroll.specs.Reaches.{IsEven};
ghost use Rattle.gen_unroll.specs.Views.{step_of};
ghost use Rattle.gen_unroll.specs.ModuleViews.{signals_in};
ghost use Rattle.gen_unroll.specs.UnitReaches.{is_settled, writer_of};
ghost use Rattle.statement_rules.specs.Views.{initial_of};
ghost use Rattle.unit_build.specs.Walks as w;
ghost use Rattle.unit_build.specs.WalkViews.{walk_of};
ghost use Rattle.unit_build.specs.WalksFrom.{instance_count, walk_from};

use crate::stepping::{instances_in, size_step, split_shapes};
use crate::unit_walk::UnitWalk;
use gen_unroll::{ModuleSignals, Step, UnitReach};
use ls_text::{NoMemory, Refusal};
use statement_rules::ItemList;
use std::alloc::Global;
use typed_ir::{ChildId, ChildShape};
use verilog_ast::ModuleBody;

// How many instances a step has.
fn instance_count(step: &Step<'_>) -> usize
    ensures { result ≡ instance_count (step_of step.now) }
{
    match step {
        Step::Item(item) => instances_in(item).len(),
        Step::Listed(_)
        | Step::Port(_)
        | Step::Parameter(_, _, _)
        | Step::Inputs(_, _, _, _)
        | Step::Outputs(_, _, _, _)
        | Step::Label(_)
        | Step::Open(_, _)
        | Step::Close => 0,
    }
}

// The number behind so many children. 2^32 of them are want of memory.
fn behind(child: ChildId, count: usize) -> Result<ChildId, NoMemory>
    ensures { IfOk result (λ next. next ≡ child + count) }
{
    if count > (u32::MAX - child.0) as usize {
        return Err(NoMemory);
    }
    Ok(ChildId(child.0 + count as u32))
}

// Goes behind a step.
fn move_on(
    walk: &mut UnitWalk<'_>,
    signals: &ModuleSignals,
    settled: &[bool],
    step: &Step<'_>,
) -> Result<(), NoMemory>
    requires { IsEven (walk_of walk.old).here }
    ensures walk { OnOk result (walk_of walk.new ≡ w.behind (writer_of (is_settled settled.now) (signals_in signals.now)) (signals_in signals.now) (step_of step.now) (walk_of walk.old)) }
    ensures even { OnOk result (IsEven (walk_of walk.new).here) }
{
    walk.here.follow(signals, settled, step)?;
    let (passed, left) = split_shapes(walk.left, instance_count(step));
    walk.child = behind(walk.child, passed.len())?;
    walk.left = left;
    Ok(())
}

// Adds the items of all steps, each with the names that are in reach before it.
fn size_all(
    alloc: Global,
    signals: &ModuleSignals,
    settled: &[bool],
    walk: &mut UnitWalk<'_>,
    steps: &[Step<'_>],
    list: &mut ItemList,
) -> Result<(), Refusal>
    requires { IsEven (walk_of walk.old).here }
    ensures faultless { OnOk result (w.walk_faults (writer_of (is_settled settled.now) (signals_in signals.now)) (signals_in signals.now) (walk_of walk.old) (map step_of steps.now) ≡ []) }
    ensures items { OnOk result (map item_of list.new.items.items
        ≡ map item_of list.old.items.items ++ w.walk_items (writer_of (is_settled settled.now) (signals_in signals.now)) (signals_in signals.now) (walk_of walk.old) (map step_of steps.now)) }
    ensures initials { OnOk result (map initial_of list.new.initials.items
        ≡ map initial_of list.old.initials.items ++ w.walk_initials (writer_of (is_settled settled.now) (signals_in signals.now)) (signals_in signals.now) (walk_of walk.old) (map step_of steps.now)) }
    ensures fault { IfErr result (IsFirst (w.walk_faults (writer_of (is_settled settled.now) (signals_in signals.now)) (signals_in signals.now) (walk_of walk.old) (map step_of steps.now))) }
{
    for step in steps {
        size_step(
            alloc,
            &walk.here.reach.scope,
            walk.child,
            walk.left,
            step,
            list,
        )?;
        move_on(walk, signals, settled, step)?;
    }
    Ok(())
}

/// The sized items of a module with these steps, and what its declarations give at the beginning, in the order of the text. Its instances
/// have these shapes, one after another.
///
/// Faults, the first one: item by item those of its expressions (29, 25, 26, 31, 32) and only then those of its targets (33) and of a
/// second default (30). Else want of memory, also at 2^32 instances.
pub fn size_steps(
    alloc: Global,
    of: &ModuleBody,
    signals: &ModuleSignals,
    settled: &[bool],
    shapes: &[ChildShape],
    steps: &[Step<'_>],
) -> Result<ItemList, Refusal>
    ensures faultless { IfOk result (λ list. w.walk_faults (writer_of (is_settled settled.now) (signals_in signals.now)) (signals_in signals.now)
        (walk_from (is_settled settled.now) (signals_in signals.now) (declaration_of of.now) shapes.now) (map step_of steps.now) ≡ []) }
    ensures items { IfOk result (λ list. map item_of list.items.items
        ≡ w.walk_items (writer_of (is_settled settled.now) (signals_in signals.now)) (signals_in signals.now)
        (walk_from (is_settled settled.now) (signals_in signals.now) (declaration_of of.now) shapes.now) (map step_of steps.now)) }
    ensures initials { IfOk result (λ list. map initial_of list.initials.items
        ≡ w.walk_initials (writer_of (is_settled settled.now) (signals_in signals.now)) (signals_in signals.now)
        (walk_from (is_settled settled.now) (signals_in signals.now) (declaration_of of.now) shapes.now) (map step_of steps.now)) }
    ensures fault { IfErr result (IsFirst (w.walk_faults (writer_of (is_settled settled.now) (signals_in signals.now)) (signals_in signals.now)
        (walk_from (is_settled settled.now) (signals_in signals.now) (declaration_of of.now) shapes.now) (map step_of steps.now))) }
{
    let mut walk = UnitWalk {
        here: UnitReach::new(alloc, of, signals, settled)?,
        child: ChildId(0),
        left: shapes,
    };
    let mut list = ItemList {
        items: Vec::new(alloc),
        initials: Vec::new(alloc),
    };
    size_all(alloc, signals, settled, &mut walk, steps, &mut list)?;
    Ok(list)
}
