// The walk over a statement that checks its targets and its defaults, when its expressions have no fault.
ghost use Rattle.std.specs.Prelude.{◌≡◌, ◌++◌, [], map, IfOk, IfErr, OnOk, false};
ghost use Rattle.verilog_ast.specs.Views.{statement_of, arm_of, statements_of};
ghost use Rattle.width_rules.specs.Entries.{scope_of};
ghost use Rattle.width_rules.specs.Faults.{IsFirst};
ghost use Rattle.statement_rules.specs.Statements.{item_faults, arm_faults, second_default, is_default_or};

use crate::target_kinds::check_target;
use ls_text::Refusal;
use std::alloc::Global;
use verilog_ast::{Arm, Stmt};
use width_rules::{Scope, Writer, refused};

/// The first, in the order of the text, of a target that this may not write (33) and of a second default of a case (30); or want of
/// memory.
#[cycle(check)]
pub fn check(alloc: Global, scope: &Scope, by: Writer, st: &Stmt) -> Result<(), Refusal>
    ensures faultless { OnOk result (item_faults (scope_of scope.now) by (statement_of st.now) ≡ []) }
    ensures fault { IfErr result (IsFirst (item_faults (scope_of scope.now) by (statement_of st.now))) }
{
    match st {
        Stmt::Block(_, _, list) => check_all(alloc, scope, by, list.as_slice()),
        Stmt::If(_, _, x) => check(alloc, scope, by, x.get()),
        Stmt::IfElse(_, _, x, y) => check_both(alloc, scope, by, x.get(), y.get()),
        Stmt::Case(_, _, _, arms) => check_arms(alloc, scope, by, arms.as_slice()),
        Stmt::Assign(target, _) => check_target(alloc, scope, by, target),
        Stmt::Empty(_) => Ok(()),
    }
}

// Of two statements.
#[cycle(check)]
fn check_both(alloc: Global, scope: &Scope, by: Writer, x: &Stmt, y: &Stmt) -> Result<(), Refusal>
    ensures faultless { OnOk result (item_faults (scope_of scope.now) by (statement_of x.now) ++ item_faults (scope_of scope.now) by (statement_of y.now) ≡ []) }
    ensures fault { IfErr result (IsFirst (item_faults (scope_of scope.now) by (statement_of x.now) ++ item_faults (scope_of scope.now) by (statement_of y.now))) }
{
    check(alloc, scope, by, x)?;
    check(alloc, scope, by, y)
}

// Of statements one after another.
#[tactic(auto, using(width_rules::proofs::Firsts::earlier, width_rules::proofs::Firsts::later, width_rules::proofs::Firsts::neither, crate::proofs::Listing::item_ahead, crate::proofs::Listing::item_fault))]
#[cycle(check)]
fn check_all(alloc: Global, scope: &Scope, by: Writer, list: &[Stmt]) -> Result<(), Refusal>
    ensures faultless { OnOk result (item_faults (scope_of scope.now) by (statements_of (map statement_of list.now)) ≡ []) }
    ensures fault { IfErr result (IsFirst (item_faults (scope_of scope.now) by (statements_of (map statement_of list.now)))) }
{
    for st in list {
        check(alloc, scope, by, st)?;
    }
    Ok(())
}

// Of the items of a case.
#[tactic(auto, using(width_rules::proofs::Firsts::earlier, width_rules::proofs::Firsts::later, width_rules::proofs::Firsts::neither, crate::proofs::Listing::checked_fault))]
#[cycle(check)]
fn check_arms(alloc: Global, scope: &Scope, by: Writer, arms: &[Arm]) -> Result<(), Refusal>
    ensures faultless { OnOk result (arm_faults (scope_of scope.now) by false (statements_of (map arm_of arms.now)) ≡ []) }
    ensures fault { IfErr result (IsFirst (arm_faults (scope_of scope.now) by false (statements_of (map arm_of arms.now)))) }
{
    let mut seen = false;
    for arm in arms {
        seen = check_arm(alloc, scope, by, arm, seen)?;
    }
    Ok(())
}

// Of one item, where a default stood before it or not; answers whether one has stood by then.
#[cycle(check)]
fn check_arm(
    alloc: Global,
    scope: &Scope,
    by: Writer,
    arm: &Arm,
    seen: bool,
) -> Result<bool, Refusal>
    ensures faultless { IfOk result (λ _. second_default seen (arm_of arm.now) ++ item_faults (scope_of scope.now) by (arm_of arm.now) ≡ []) }
    ensures seen { IfOk result (λ after. after ≡ is_default_or seen (arm_of arm.now)) }
    ensures fault { IfErr result (IsFirst (second_default seen (arm_of arm.now) ++ item_faults (scope_of scope.now) by (arm_of arm.now))) }
{
    match arm {
        Arm::Default(at, body) => {
            if seen {
                return Err(refused(alloc, 30, *at, None));
            }
            check(alloc, scope, by, body.get())?;
            Ok(true)
        }
        Arm::Match(_, body) => {
            check(alloc, scope, by, body.get())?;
            Ok(seen)
        }
    }
}
