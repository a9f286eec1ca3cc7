// Declarations with values: of a net a continuous assignment, of a variable what it has at the beginning (IEEE Std 1364-2005, 6.1.1, 6.2.1).
ghost use Rattle.std.specs.Prelude.{◌≡◌, ◌++◌, ◌∷◌, [], map, if◌then◌else◌, OnOk, IfOk, IfErr};
ghost use Rattle.typed_ir.specs.Items.{item_of, Initial};
ghost use Rattle.verilog_ast.specs.Expressions as e;
ghost use Rattle.verilog_ast.specs.Views.{target_of};
ghost use Rattle.width_rules.specs.declared.due.Due.TheVariants.{ConstantOnly};
ghost use Rattle.width_rules.specs.Entries.{scope_of};
ghost use Rattle.width_rules.specs.Faults.{IsFirst, faults};
ghost use Rattle.width_rules.specs.Mentions.{numbered};
ghost use Rattle.statement_rules.specs.Drives.{drive_faults};
ghost use Rattle.statement_rules.specs.Targets.{target_faults};
ghost use Rattle.statement_rules.specs.DeclaredValues as d;
ghost use Rattle.statement_rules.specs.DeclaredValues.{is_net_value, name_of, as_assignment, initial_value, value_faults, value_kinds, all_value_faults, all_value_kinds, declaration_faults, declaration_initials};
ghost use Rattle.statement_rules.specs.SizedItems.{drive_item, initial_item, value_item};
ghost use Rattle.statement_rules.specs.Views.{declared_value_of, initial_of};

use crate::declared_value::DeclaredValue;
use crate::driving::size_pair;
use crate::initials::initial;
use crate::item_list::ItemList;
use crate::target_kinds::check_target;
use crate::value_kind::ValueKind;
use ls_text::{NoMemory, Refusal};
use std::alloc::Global;
use typed_ir::{ItemBody, ItemPlaces, Mention, SignalId, TypedItem};
use verilog_ast::{Identifier, Lhs, Reference};
use width_rules::{Entry, Scope, Writer};

// Whether a continuous assignment drives what a name stands for.
fn is_net_name(scope: &Scope, name: Identifier) -> bool
    ensures { result ≡ d.is_net (scope_of scope.now name.name.0) }
{
    match scope.find(name.name) {
        Entry::Signal(x) => matches!(x.writer, Writer::Continuous),
        Entry::Constant(_) | Entry::Turn(_) | Entry::Genvar | Entry::Unknown => false,
    }
}

// Whether a continuous assignment takes the value.
fn is_net(scope: &Scope, x: &DeclaredValue<'_>) -> bool
    ensures { result ≡ is_net_value (scope_of scope.now) (declared_value_of x.now) }
{
    match x.kind {
        ValueKind::Net => true,
        ValueKind::Variable => false,
        ValueKind::AsDeclared => is_net_name(scope, x.name),
    }
}

// What writes nets, and what writes the variables that have values at the beginning.
fn writer_by(net: bool) -> Writer
    ensures { result ≡ d.writer_by net }
{
    if net {
        Writer::Continuous
    } else {
        Writer::Clocked
    }
}

// A name as a target.
#[tactic(auto, using(crate::proofs::Names::named_seen))]
fn named(name: Identifier) -> Lhs
    ensures { target_of result ≡ e.Reference (e.Whole name) }
{
    Lhs::Reference(Reference::Whole(name))
}

// The item of a net.
fn net_item(alloc: Global, scope: &Scope, x: &DeclaredValue<'_>) -> Result<TypedItem, Refusal>
    ensures faultless { IfOk result (λ _. drive_faults (scope_of scope.now) (as_assignment (declared_value_of x.now)) ≡ []) }
    ensures item { IfOk result (λ r. item_of r ≡ drive_item (scope_of scope.now) (as_assignment (declared_value_of x.now))) }
    ensures fault { IfErr result (IsFirst (drive_faults (scope_of scope.now) (as_assignment (declared_value_of x.now)))) }
{
    let target = named(x.name);
    size_pair(alloc, scope, &target, x.value)
}

// One name by itself.
fn mentioned(alloc: Global, name: Identifier) -> Result<Vec<Mention>, NoMemory>
    ensures { IfOk result (λ list. list.items ≡ numbered 0 (name ∷ [])) }
{
    let mut list = Vec::new(alloc);
    list.push(Mention {
        name: name.name,
        at: name.at,
        order: 0,
    })?;
    Ok(list)
}

// The item of a variable.
fn variable_item(alloc: Global, signal: SignalId, name: Identifier) -> Result<TypedItem, NoMemory>
    ensures { IfOk result (λ r. item_of r ≡ record { body = Initial signal; at = name.at; targets = numbered 0 (name ∷ []); reads = [] }) }
{
    let targets = mentioned(alloc, name)?;
    Ok(TypedItem {
        body: ItemBody::Initial(signal),
        places: ItemPlaces {
            at: name.at,
            targets,
            reads: Vec::new(alloc),
        },
    })
}

// Adds the item of a net.
#[tactic(auto, using(width_rules::proofs::Firsts::earlier, width_rules::proofs::Firsts::later, width_rules::proofs::Firsts::neither, crate::proofs::Placed::added))]
fn size_net(
    alloc: Global,
    scope: &Scope,
    x: &DeclaredValue<'_>,
    items: &mut Vec<TypedItem>,
) -> Result<(), Refusal>
    ensures faultless { OnOk result (drive_faults (scope_of scope.now) (as_assignment (declared_value_of x.now)) ≡ []) }
    ensures items { OnOk result (map item_of items.new.items ≡ map item_of items.old.items ++ drive_item (scope_of scope.now) (as_assignment (declared_value_of x.now)) ∷ []) }
    ensures fault { IfErr result (IsFirst (drive_faults (scope_of scope.now) (as_assignment (declared_value_of x.now)))) }
{
    let item = net_item(alloc, scope, x)?;
    items.push(item)?;
    Ok(())
}

// Adds the item of a variable, and what it has at the beginning.
#[tactic(auto, using(width_rules::proofs::Firsts::earlier, width_rules::proofs::Firsts::later, width_rules::proofs::Firsts::neither, crate::proofs::Placed::added))]
fn size_variable(
    alloc: Global,
    scope: &Scope,
    x: &DeclaredValue<'_>,
    list: &mut ItemList,
) -> Result<(), Refusal>
    ensures faultless { OnOk result (target_faults (scope_of scope.now) ConstantOnly (name_of (declared_value_of x.now)) ++ faults (scope_of scope.now) ConstantOnly (declared_value_of x.now).value ≡ []) }
    ensures items { OnOk result (map item_of list.new.items.items ≡ map item_of list.old.items.items ++ initial_item (scope_of scope.now) (declared_value_of x.now) ∷ []) }
    ensures initials { OnOk result (map initial_of list.new.initials.items ≡ map initial_of list.old.initials.items ++ initial_value (scope_of scope.now) (declared_value_of x.now) ∷ []) }
    ensures fault { IfErr result (IsFirst (target_faults (scope_of scope.now) ConstantOnly (name_of (declared_value_of x.now)) ++ faults (scope_of scope.now) ConstantOnly (declared_value_of x.now).value)) }
{
    let found = initial(alloc, scope, x)?;
    let item = variable_item(alloc, found.signal, x.name)?;
    list.items.push(item)?;
    list.initials.push(found)?;
    Ok(())
}

// Adds the item of a name with its value.
fn size_value(
    alloc: Global,
    scope: &Scope,
    x: &DeclaredValue<'_>,
    list: &mut ItemList,
) -> Result<(), Refusal>
    ensures faultless { OnOk result (value_faults (scope_of scope.now) (declared_value_of x.now) ≡ []) }
    ensures items { OnOk result (map item_of list.new.items.items ≡ map item_of list.old.items.items ++ value_item (scope_of scope.now) (declared_value_of x.now) ∷ []) }
    ensures initials { OnOk result (map initial_of list.new.initials.items ≡ map initial_of list.old.initials.items
        ++ (if is_net_value (scope_of scope.now) (declared_value_of x.now) then [] else initial_value (scope_of scope.now) (declared_value_of x.now) ∷ [])) }
    ensures fault { IfErr result (IsFirst (value_faults (scope_of scope.now) (declared_value_of x.now))) }
{
    if is_net(scope, x) {
        size_net(alloc, scope, x, &mut list.items)
    } else {
        size_variable(alloc, scope, x, list)
    }
}

// Adds those of all; or the first fault of their expressions, or want of memory.
#[tactic(auto, using(width_rules::proofs::Firsts::earlier, width_rules::proofs::Firsts::later, width_rules::proofs::Firsts::neither, crate::proofs::ListedItems::value_ahead, crate::proofs::ListedItems::value_fault))]
fn size_values(
    alloc: Global,
    scope: &Scope,
    values: &[DeclaredValue<'_>],
    list: &mut ItemList,
) -> Result<(), Refusal>
    ensures faultless { OnOk result (all_value_faults (scope_of scope.now) (map declared_value_of values.now) ≡ []) }
    ensures items { OnOk result (map item_of list.new.items.items ≡ map item_of list.old.items.items ++ map (value_item (scope_of scope.now)) (map declared_value_of values.now)) }
    ensures initials { OnOk result (map initial_of list.new.initials.items ≡ map initial_of list.old.initials.items ++ declaration_initials (scope_of scope.now) (map declared_value_of values.now)) }
    ensures fault { IfErr result (IsFirst (all_value_faults (scope_of scope.now) (map declared_value_of values.now))) }
{
    for x in values {
        size_value(alloc, scope, x, list)?;
    }
    Ok(())
}

// 33 at a name that is neither a net nor a register.
fn check_value(alloc: Global, scope: &Scope, x: &DeclaredValue<'_>) -> Result<(), Refusal>
    ensures faultless { OnOk result (value_kinds (scope_of scope.now) (declared_value_of x.now) ≡ []) }
    ensures fault { IfErr result (IsFirst (value_kinds (scope_of scope.now) (declared_value_of x.now))) }
{
    let by = writer_by(is_net(scope, x));
    let target = named(x.name);
    check_target(alloc, scope, by, &target)
}

// The first one of these; or want of memory.
#[tactic(auto, using(width_rules::proofs::Firsts::earlier, width_rules::proofs::Firsts::later, width_rules::proofs::Firsts::neither, crate::proofs::ListedItems::kind_ahead, crate::proofs::ListedItems::kind_fault))]
fn check_values(alloc: Global, scope: &Scope, values: &[DeclaredValue<'_>]) -> Result<(), Refusal>
    ensures faultless { OnOk result (all_value_kinds (scope_of scope.now) (map declared_value_of values.now) ≡ []) }
    ensures fault { IfErr result (IsFirst (all_value_kinds (scope_of scope.now) (map declared_value_of values.now))) }
{
    for x in values {
        check_value(alloc, scope, x)?;
    }
    Ok(())
}

/// Adds the items of names with their values, and what variables have at the beginning.
///
/// Faults: first those of the names and the values in the order of the text, 29 UnknownName at a name, and at the value of a variable 25
/// NotConstant too; and only then 33 BadTarget at a name that is neither a net nor a register. Else want of memory.
pub fn size_declared(
    alloc: Global,
    scope: &Scope,
    values: &[DeclaredValue<'_>],
    list: &mut ItemList,
) -> Result<(), Refusal>
    ensures faultless { OnOk result (declaration_faults (scope_of scope.now) (map declared_value_of values.now) ≡ []) }
    ensures items { OnOk result (map item_of list.new.items.items ≡ map item_of list.old.items.items ++ map (value_item (scope_of scope.now)) (map declared_value_of values.now)) }
    ensures initials { OnOk result (map initial_of list.new.initials.items ≡ map initial_of list.old.initials.items ++ declaration_initials (scope_of scope.now) (map declared_value_of values.now)) }
    ensures fault { IfErr result (IsFirst (declaration_faults (scope_of scope.now) (map declared_value_of values.now))) }
{
    size_values(alloc, scope, values, list)?;
    check_values(alloc, scope, values)
}
