// Assignments: a value at the larger of its own length and its target's, and continuous assignments.
ghost use Rattle.std.specs.Prelude.{◌≡◌, ◌≤◌, ◌++◌, [], true, false, map, IfOk, IfErr, OnOk, IsTrue};
ghost use Rattle.typed_ir.specs.Forms.{sized};
ghost use Rattle.typed_ir.specs.Stmts.{Fixed};
ghost use Rattle.typed_ir.specs.Targets.{targets_of as parts_of};
ghost use Rattle.verilog_ast.specs.Views.{expression_of, target_of, assignment_of};
ghost use Rattle.statement_rules.specs.Drives.{sized_drive, drive_of, drive_faults, all_drive_faults, all_kind_faults, assign_faults, are_fixed};
ghost use Rattle.width_rules.specs.declared.due.Due.TheVariants.{AnyValue};
ghost use Rattle.width_rules.specs.Entries.{scope_of};
ghost use Rattle.width_rules.specs.Faults.{IsFirst, faults};
ghost use Rattle.statement_rules.specs.Statements.{assigned};

use crate::drive::Drive;
use crate::sized_target::SizedTarget;
use crate::target_kinds::check_target;
use crate::targeting::size_target;
use ls_text::{NoMemory, Refusal};
use std::alloc::Global;
use typed_ir::{Lane, Target, Typed};
use verilog_ast::{Continuous, Expr, Lhs};
use width_rules::{Due, Scope, Writer, close, measure};

/// The value of an assignment to a target of so many bits, 1 to 128: at the larger of both lengths, by its own sign; or its first
/// fault, or want of memory.
#[tactic(auto, using(width_rules::proofs::Firsts::earlier, width_rules::proofs::Firsts::later, width_rules::proofs::Firsts::neither, width_rules::proofs::Opening::pushed))]
pub fn assigned(alloc: Global, scope: &Scope, width: u8, value: &Expr) -> Result<Typed, Refusal>
    requires { width ≤ 128 }
    ensures faultless { IfOk result (λ _. faults (scope_of scope.now) AnyValue (expression_of value.now) ≡ []) }
    ensures form { IfOk result (λ x. sized x.form ≡ assigned (scope_of scope.now) width (expression_of value.now)) }
    ensures fault { IfErr result (IsFirst (faults (scope_of scope.now) AnyValue (expression_of value.now))) }
{
    let m = measure(alloc, scope, Due::AnyValue, value)?;
    let length = width.max(m.length);
    Ok(close(alloc, m.form, length, m.signed)?)
}

// The parts of a target whose bits are all known.
fn lanes_of(alloc: Global, parts: Vec<Target>) -> Result<Vec<Lane>, NoMemory>
    requires { IsTrue (are_fixed (parts_of parts.items)) }
    ensures { IfOk result (λ lanes. map Fixed lanes.items ≡ parts_of parts.items) }
{
    let mut lanes = Vec::new(alloc);
    for part in parts {
        match part {
            Target::Fixed(lane) => lanes.push(lane)?,
            Target::Moving { .. } => unreachable!(),
        }
    }
    Ok(lanes)
}

/// A continuous assignment of a value to a target: the value at the larger of both lengths, by its own sign; or the first fault of its
/// expressions, or want of memory. Who may write the target is `check_target`'s question.
pub fn size_drive(
    alloc: Global,
    scope: &Scope,
    target: &Lhs,
    value: &Expr,
) -> Result<Drive, Refusal>
    ensures faultless { IfOk result (λ _. drive_faults (scope_of scope.now) (record { target = target_of target.now; value = expression_of value.now }) ≡ []) }
    ensures drive { IfOk result (λ x. drive_of x ≡ sized_drive (scope_of scope.now) (record { target = target_of target.now; value = expression_of value.now })) }
    ensures fault { IfErr result (IsFirst (drive_faults (scope_of scope.now) (record { target = target_of target.now; value = expression_of value.now }))) }
{
    let SizedTarget { parts, width } = size_target(alloc, scope, Due::ConstantOnly, target)?;
    let value = assigned(alloc, scope, width, value)?;
    let lanes = lanes_of(alloc, parts)?;
    Ok(Drive { lanes, value })
}

// All of an item, with the first fault of their expressions.
#[tactic(auto, using(width_rules::proofs::Firsts::earlier, width_rules::proofs::Firsts::later, width_rules::proofs::Firsts::neither, crate::proofs::Listing::drive_ahead, crate::proofs::Listing::drive_fault))]
fn size_drives(alloc: Global, scope: &Scope, list: &[Continuous]) -> Result<Vec<Drive>, Refusal>
    ensures faultless { IfOk result (λ _. all_drive_faults (scope_of scope.now) (map assignment_of list.now) ≡ []) }
    ensures drives { IfOk result (λ xs. map drive_of xs.items ≡ map (sized_drive (scope_of scope.now)) (map assignment_of list.now)) }
    ensures fault { IfErr result (IsFirst (all_drive_faults (scope_of scope.now) (map assignment_of list.now))) }
{
    let mut drives = Vec::new(alloc);
    for assignment in list {
        let drive = size_drive(alloc, scope, &assignment.target, assignment.value.get())?;
        drives.push(drive)?;
    }
    Ok(drives)
}

// The first target of an item that no continuous assignment may write (33), or want of memory.
#[tactic(auto, using(width_rules::proofs::Firsts::earlier, width_rules::proofs::Firsts::later, width_rules::proofs::Firsts::neither, crate::proofs::Listing::driven_ahead, crate::proofs::Listing::driven_fault))]
fn check_drives(alloc: Global, scope: &Scope, list: &[Continuous]) -> Result<(), Refusal>
    ensures faultless { OnOk result (all_kind_faults (scope_of scope.now) (map assignment_of list.now) ≡ []) }
    ensures fault { IfErr result (IsFirst (all_kind_faults (scope_of scope.now) (map assignment_of list.now))) }
{
    for assignment in list {
        check_target(alloc, scope, Writer::Continuous, &assignment.target)?;
    }
    Ok(())
}

/// The continuous assignments of one item, sized: each value at the larger of its own length and its target's, by its own sign
/// (IEEE Std 1364-2005, 5.4.1, 5.5.1, 6.1).
///
/// Faults: first those of all expressions from left to right, as of `size_expr`, with 25 NotConstant at a net or variable in an index
/// of a target, and 26 BadRange or 31 TooWide at a target that is a concatenation; and only then 33 BadTarget at a name that a
/// continuous assignment may not write. Else want of memory.
pub fn size_assign(alloc: Global, scope: &Scope, list: &[Continuous]) -> Result<Vec<Drive>, Refusal>
    ensures faultless { IfOk result (λ _. assign_faults (scope_of scope.now) (map assignment_of list.now) ≡ []) }
    ensures drives { IfOk result (λ xs. map drive_of xs.items ≡ map (sized_drive (scope_of scope.now)) (map assignment_of list.now)) }
    ensures fault { IfErr result (IsFirst (assign_faults (scope_of scope.now) (map assignment_of list.now))) }
{
    let drives = size_drives(alloc, scope, list)?;
    check_drives(alloc, scope, list)?;
    Ok(drives)
}
