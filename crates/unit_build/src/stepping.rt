// One step of a module, sized.
ghost use Rattle.std.specs.Prelude.{◌≡◌, ◌++◌, [], map, length, take, drop, OnOk, IfErr};
ghost use Rattle.typed_ir.specs.Items.{item_of};
ghost use Rattle.verilog_ast.specs.Views.{instance_of, plain_item_of};
ghost use Rattle.width_rules.specs.Entries.{scope_of};
ghost use Rattle.width_rules.specs.Faults.{IsFirst};
ghost use Rattle.gen_unroll.specs.Views.{step_of};
ghost use Rattle.unit_build.specs.Instances.{item_faults, instance_items};
ghost use Rattle.statement_rules.specs.SizedItems.{plain_faults, plain_items, plain_initials};
ghost use Rattle.statement_rules.specs.Views.{initial_of};
ghost use Rattle.unit_build.specs.Walks as w;

use crate::instancing::size_instances;
use gen_unroll::Step;
use ls_text::{NoMemory, Refusal};
use statement_rules::{ItemList, size_outputs, size_plain, size_port};
use std::alloc::Global;
use typed_ir::{ChildId, ChildShape, TypedItem};
use verilog_ast::{Instance, PlainItem};
use width_rules::Scope;

/// The first shapes, so many where there are as many, and those behind them.
pub fn split_shapes<'a>(
    left: &'a [ChildShape],
    count: usize,
) -> (&'a [ChildShape], &'a [ChildShape])
    ensures first { result.0.now ≡ take count left.now }
    ensures behind { result.1.now ≡ drop count left.now }
{
    left.split_at(count.min(left.len()))
}

/// The instances of an item.
pub fn instances_in(item: &PlainItem) -> &[Instance]
    ensures { map instance_of result.now ≡ w.instances_in (plain_item_of item.now) }
{
    match item {
        PlainItem::Instances(_, _, instances) => instances.as_slice(),
        PlainItem::Wire(_, _, _)
        | PlainItem::Reg(_, _, _)
        | PlainItem::LocalParameter(_, _, _)
        | PlainItem::Genvar(_, _)
        | PlainItem::Assign(_, _)
        | PlainItem::Combinational(_, _)
        | PlainItem::Clocked(_, _, _) => &[],
    }
}

// Adds items behind others.
fn add_items(items: &mut Vec<TypedItem>, more: Vec<TypedItem>) -> Result<(), NoMemory>
    ensures { OnOk result (map item_of items.new.items ≡ map item_of items.old.items ++ map item_of more.items) }
{
    for item in more {
        items.push(item)?;
    }
    Ok(())
}

// The instances of an item, with the first shapes that are left.
fn size_children(
    alloc: Global,
    scope: &Scope,
    child: ChildId,
    left: &[ChildShape],
    instances: &[Instance],
    list: &mut ItemList,
) -> Result<(), Refusal>
    ensures faultless { OnOk result (item_faults (scope_of scope.now) (take (length (map instance_of instances.now)) left.now) (map instance_of instances.now) ≡ []) }
    ensures items { OnOk result (map item_of list.new.items.items ≡ map item_of list.old.items.items
        ++ instance_items (scope_of scope.now) child (take (length (map instance_of instances.now)) left.now) (map instance_of instances.now)) }
    ensures initials { OnOk result (map initial_of list.new.initials.items ≡ map initial_of list.old.initials.items) }
    ensures fault { IfErr result (IsFirst (item_faults (scope_of scope.now) (take (length (map instance_of instances.now)) left.now) (map instance_of instances.now))) }
{
    let (shapes, _) = split_shapes(left, instances.len());
    let items = size_instances(alloc, scope, child, shapes, instances)?;
    add_items(&mut list.items, items)?;
    Ok(())
}

// An item, with its instances.
fn size_item(
    alloc: Global,
    scope: &Scope,
    child: ChildId,
    left: &[ChildShape],
    item: &PlainItem,
    list: &mut ItemList,
) -> Result<(), Refusal>
    ensures faultless { OnOk result (plain_faults (scope_of scope.now) (plain_item_of item.now)
        ++ item_faults (scope_of scope.now) (w.shapes_of left.now (plain_item_of item.now)) (w.instances_in (plain_item_of item.now)) ≡ []) }
    ensures items { OnOk result (map item_of list.new.items.items ≡ map item_of list.old.items.items ++ (plain_items (scope_of scope.now) (plain_item_of item.now)
        ++ instance_items (scope_of scope.now) child (w.shapes_of left.now (plain_item_of item.now)) (w.instances_in (plain_item_of item.now)))) }
    ensures initials { OnOk result (map initial_of list.new.initials.items
        ≡ map initial_of list.old.initials.items ++ plain_initials (scope_of scope.now) (plain_item_of item.now)) }
    ensures fault { IfErr result (IsFirst (plain_faults (scope_of scope.now) (plain_item_of item.now)
        ++ item_faults (scope_of scope.now) (w.shapes_of left.now (plain_item_of item.now)) (w.instances_in (plain_item_of item.now)))) }
{
    size_plain(alloc, scope, item, list)?;
    size_children(alloc, scope, child, left, instances_in(item), list)
}

/// Adds the sized items of a step of an unrolled module, and what its declarations give at the beginning. Its instances are numbered
/// from `child` on and have the first of the shapes that are left.
///
/// Faults, the first one: of an item those of its expressions (29, 25, 26, 31, 32) in the order of the text, and only then those of its
/// targets (33) and of a second default (30). Else want of memory.
pub fn size_step(
    alloc: Global,
    scope: &Scope,
    child: ChildId,
    left: &[ChildShape],
    step: &Step<'_>,
    list: &mut ItemList,
) -> Result<(), Refusal>
    ensures faultless { OnOk result (w.step_faults (scope_of scope.now) left.now (step_of step.now) ≡ []) }
    ensures items { OnOk result (map item_of list.new.items.items ≡ map item_of list.old.items.items ++ w.step_items (scope_of scope.now) child left.now (step_of step.now)) }
    ensures initials { OnOk result (map initial_of list.new.initials.items ≡ map initial_of list.old.initials.items ++ w.step_initials (scope_of scope.now) (step_of step.now)) }
    ensures fault { IfErr result (IsFirst (w.step_faults (scope_of scope.now) left.now (step_of step.now))) }
{
    match step {
        Step::Port(port) => size_port(alloc, scope, port, list),
        Step::Outputs(_, net, _, ports) => size_outputs(alloc, scope, *net, ports, list),
        Step::Item(item) => size_item(alloc, scope, child, left, item, list),
        Step::Listed(_)
        | Step::Parameter(_, _, _)
        | Step::Inputs(_, _, _, _)
        | Step::Label(_)
        | Step::Open(_, _)
        | Step::Close => Ok(()),
    }
}
