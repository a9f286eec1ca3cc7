// The connections of the instances of one item.
ghost use Rattle.std.specs.Prelude.{◌≡◌, ◌+◌, ◌++◌, [], map, OnOk, IfOk, IfErr};
ghost use Rattle.typed_ir.specs.Items.{item_of};
ghost use Rattle.verilog_ast.specs.Views.{instance_of};
ghost use Rattle.width_rules.specs.Entries.{scope_of};
ghost use Rattle.width_rules.specs.Faults.{IsFirst};
ghost use Rattle.unit_build.specs.Connections.{connected_to, all_connection_faults, all_connection_kinds};
ghost use Rattle.unit_build.specs.Instances.{instance_faults, instance_kinds, item_faults, child_items, instance_items};

use crate::checking::check_connections;
use crate::connecting::connected;
use crate::port_order::size_connections;
use ls_text::{NoMemory, Refusal};
use std::alloc::Global;
use typed_ir::{ChildId, ChildShape, TypedItem};
use verilog_ast::Instance;
use width_rules::Scope;

// The next child; past the largest number there is no memory.
fn next(child: ChildId) -> Result<ChildId, NoMemory>
    ensures { IfOk result (λ after. after ≡ child + 1) }
{
    match child.0.checked_add(1) {
        Some(after) => Ok(ChildId(after)),
        None => Err(NoMemory),
    }
}

// Adds the items of one instance.
fn size_instance(
    alloc: Global,
    scope: &Scope,
    child: ChildId,
    shape: &ChildShape,
    instance: &Instance,
    items: &mut Vec<TypedItem>,
) -> Result<(), Refusal>
    ensures faultless { OnOk result (all_connection_faults (scope_of scope.now) (connected_to shape.now (instance_of instance.now).connections) ≡ []) }
    ensures items { OnOk result (map item_of items.new.items
        ≡ map item_of items.old.items ++ child_items (scope_of scope.now) child shape.now (instance_of instance.now)) }
    ensures fault { IfErr result (IsFirst (all_connection_faults (scope_of scope.now) (connected_to shape.now (instance_of instance.now).connections))) }
{
    let list = connected(alloc, shape, &instance.connections)?;
    size_connections(alloc, scope, child, shape.ports.as_slice(), &list, items)
}

// The items of all instances; or the first fault of their expressions, or want of memory.
fn size_all(
    alloc: Global,
    scope: &Scope,
    first: ChildId,
    shapes: &[ChildShape],
    instances: &[Instance],
) -> Result<Vec<TypedItem>, Refusal>
    ensures faultless { IfOk result (λ _. instance_faults (scope_of scope.now) shapes.now (map instance_of instances.now) ≡ []) }
    ensures items { IfOk result (λ xs. map item_of xs.items ≡ instance_items (scope_of scope.now) first shapes.now (map instance_of instances.now)) }
    ensures fault { IfErr result (IsFirst (instance_faults (scope_of scope.now) shapes.now (map instance_of instances.now))) }
{
    let mut items = Vec::new(alloc);
    let mut child = first;
    let mut left = shapes;
    for instance in instances {
        let Some((shape, rest)) = left.split_first() else {
            return Ok(items);
        };
        size_instance(alloc, scope, child, shape, instance, &mut items)?;
        child = next(child)?;
        left = rest;
    }
    Ok(items)
}

// The first target of one instance that no continuous assignment may write (33).
fn check_instance(
    alloc: Global,
    scope: &Scope,
    shape: &ChildShape,
    instance: &Instance,
) -> Result<(), Refusal>
    ensures faultless { OnOk result (all_connection_kinds (scope_of scope.now) (connected_to shape.now (instance_of instance.now).connections) ≡ []) }
    ensures fault { IfErr result (IsFirst (all_connection_kinds (scope_of scope.now) (connected_to shape.now (instance_of instance.now).connections))) }
{
    let list = connected(alloc, shape, &instance.connections)?;
    check_connections(alloc, scope, &list)
}

// The same of all instances.
fn check_all(
    alloc: Global,
    scope: &Scope,
    shapes: &[ChildShape],
    instances: &[Instance],
) -> Result<(), Refusal>
    ensures faultless { OnOk result (instance_kinds (scope_of scope.now) shapes.now (map instance_of instances.now) ≡ []) }
    ensures fault { IfErr result (IsFirst (instance_kinds (scope_of scope.now) shapes.now (map instance_of instances.now))) }
{
    let mut left = shapes;
    for instance in instances {
        let Some((shape, rest)) = left.split_first() else {
            return Ok(());
        };
        check_instance(alloc, scope, shape, instance)?;
        left = rest;
    }
    Ok(())
}

/// The connections of the instances of one item, sized: of each instance the ports in header order, each with its first connection. The
/// k-th instance has the k-th shape, and the first one the number `first` (IEEE Std 1364-2005, 12.3.5, 12.3.6, 12.3.9).
///
/// Faults: first those of all expressions in the order of the text, of an input as of `size_expr`, of an output as of `size_output`; and
/// only then 33 BadTarget, as of `check_output`. Else want of memory, also at 2^32 children or ports.
pub fn size_instances(
    alloc: Global,
    scope: &Scope,
    first: ChildId,
    shapes: &[ChildShape],
    instances: &[Instance],
) -> Result<Vec<TypedItem>, Refusal>
    ensures faultless { IfOk result (λ _. item_faults (scope_of scope.now) shapes.now (map instance_of instances.now) ≡ []) }
    ensures items { IfOk result (λ xs. map item_of xs.items ≡ instance_items (scope_of scope.now) first shapes.now (map instance_of instances.now)) }
    ensures fault { IfErr result (IsFirst (item_faults (scope_of scope.now) shapes.now (map instance_of instances.now))) }
{
    let items = size_all(alloc, scope, first, shapes, instances)?;
    check_all(alloc, scope, shapes, instances)?;
    Ok(items)
}
