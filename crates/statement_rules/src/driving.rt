// Continuous assignments: each pair of an `assign` is an item (IEEE Std 1364-2005, 6.1).
ghost use Rattle.std.specs.Prelude.{◌≡◌, ◌++◌, [], map, OnOk, IfOk, IfErr};
ghost use Rattle.typed_ir.specs.Items.{item_of};
ghost use Rattle.verilog_ast.specs.Views.{expression_of, target_of, assignment_of};
ghost use Rattle.width_rules.specs.Entries.{scope_of};
ghost use Rattle.width_rules.specs.Faults.{IsFirst};
ghost use Rattle.statement_rules.specs.Drives.{drive_faults, all_drive_faults, all_kind_faults, assign_faults};
ghost use Rattle.statement_rules.specs.SizedItems.{drive_item};

use crate::assigning::size_drive;
use crate::drive::Drive;
use crate::target_kinds::check_target;
use ls_text::Refusal;
use std::alloc::Global;
use typed_ir::{ItemBody, ItemPlaces, Node, TypedItem, UnitNode};
use verilog_ast::{Continuous, Expr, Lhs};
use width_rules::{Scope, Writer, target_form, target_mentions};

/// The item of a continuous assignment of a value to a target; or the first fault of its expressions, or want of memory.
pub fn size_pair(
    alloc: Global,
    scope: &Scope,
    target: &Lhs,
    value: &Expr,
) -> Result<TypedItem, Refusal>
    ensures faultless { IfOk result (λ _. drive_faults (scope_of scope.now) (record { target = target_of target.now; value = expression_of value.now }) ≡ []) }
    ensures item { IfOk result (λ x. item_of x ≡ drive_item (scope_of scope.now) (record { target = target_of target.now; value = expression_of value.now })) }
    ensures fault { IfErr result (IsFirst (drive_faults (scope_of scope.now) (record { target = target_of target.now; value = expression_of value.now }))) }
{
    let targets = target_mentions(alloc, target)?;
    let form = target_form(scope, target);
    let drive = size_drive(alloc, scope, target, value)?;
    let Drive { lanes, value } = drive;
    Ok(TypedItem {
        body: ItemBody::Node(UnitNode::Own(Node::Drive { form, lanes, value })),
        places: ItemPlaces {
            at: target.place(),
            targets,
            reads: Vec::new(alloc),
        },
    })
}

// Adds the items of all pairs; or the first fault of their expressions, or want of memory.
#[tactic(auto, using(width_rules::proofs::Firsts::earlier, width_rules::proofs::Firsts::later, width_rules::proofs::Firsts::neither, crate::proofs::Listing::drive_ahead, crate::proofs::Listing::drive_fault))]
fn size_pairs(
    alloc: Global,
    scope: &Scope,
    pairs: &[Continuous],
    items: &mut Vec<TypedItem>,
) -> Result<(), Refusal>
    ensures faultless { OnOk result (all_drive_faults (scope_of scope.now) (map assignment_of pairs.now) ≡ []) }
    ensures items { OnOk result (map item_of items.new.items
        ≡ map item_of items.old.items ++ map (drive_item (scope_of scope.now)) (map assignment_of pairs.now)) }
    ensures fault { IfErr result (IsFirst (all_drive_faults (scope_of scope.now) (map assignment_of pairs.now))) }
{
    for pair in pairs {
        let item = size_pair(alloc, scope, &pair.target, pair.value.get())?;
        items.push(item)?;
    }
    Ok(())
}

// The first target that no continuous assignment may write (33), or want of memory.
#[tactic(auto, using(width_rules::proofs::Firsts::earlier, width_rules::proofs::Firsts::later, width_rules::proofs::Firsts::neither, crate::proofs::Listing::driven_ahead, crate::proofs::Listing::driven_fault))]
fn check_pairs(alloc: Global, scope: &Scope, pairs: &[Continuous]) -> Result<(), Refusal>
    ensures faultless { OnOk result (all_kind_faults (scope_of scope.now) (map assignment_of pairs.now) ≡ []) }
    ensures fault { IfErr result (IsFirst (all_kind_faults (scope_of scope.now) (map assignment_of pairs.now))) }
{
    for pair in pairs {
        check_target(alloc, scope, Writer::Continuous, &pair.target)?;
    }
    Ok(())
}

/// Adds the items of an `assign`: its first fault as of `size_assign`, or want of memory.
pub fn size_assigns(
    alloc: Global,
    scope: &Scope,
    pairs: &[Continuous],
    items: &mut Vec<TypedItem>,
) -> Result<(), Refusal>
    ensures faultless { OnOk result (assign_faults (scope_of scope.now) (map assignment_of pairs.now) ≡ []) }
    ensures items { OnOk result (map item_of items.new.items
        ≡ map item_of items.old.items ++ map (drive_item (scope_of scope.now)) (map assignment_of pairs.now)) }
    ensures fault { IfErr result (IsFirst (assign_faults (scope_of scope.now) (map assignment_of pairs.now))) }
{
    size_pairs(alloc, scope, pairs, items)?;
    check_pairs(alloc, scope, pairs)
}
