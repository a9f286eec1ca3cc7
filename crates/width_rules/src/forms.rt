// In which form a target is shown, and which target a block is named by.
ghost use Rattle.std.specs.Prelude.{◌≡◌, Some, None, map};
ghost use Rattle.verilog_ast.specs.Views.{expression_of, reference_of, target_of, targets_of, statement_of, arm_of, statements_of};
ghost use Rattle.width_rules.specs.Entries.{scope_of};
ghost use Rattle.width_rules.specs.Sizes.{is_constant as has_no_signal};
ghost use Rattle.width_rules.specs.Forms.{known_as as shown_where, reference_form as form_of_reference, first_part as part_of, target_form as form_of_target, first_or as or_else, first_target as target_in, statement_form as form_of_statement, first_number as number_of_first};

use crate::constants::is_constant;
use crate::scope::Scope;
use typed_ir::{Mention, TargetForm};
use verilog_ast::{Arm, Expr, Lhs, Reference, Stmt};

// A select by an index: its name where the index is known at run time alone.
fn known_as(scope: &Scope, index: &Expr, shown: TargetForm) -> TargetForm
    ensures { result ≡ shown_where (has_no_signal (scope_of scope.now) (expression_of index.now)) shown }
{
    if is_constant(scope, index) {
        shown
    } else {
        TargetForm::Name
    }
}

/// In which form a name with its select is shown, or a name without.
pub fn reference_form(scope: &Scope, reference: &Reference) -> TargetForm
    ensures { result ≡ form_of_reference (scope_of scope.now) (reference_of reference.now) }
{
    match reference {
        Reference::Whole(_) => TargetForm::Name,
        Reference::Bit(_, a) => known_as(scope, a.get(), TargetForm::Bit),
        Reference::Part(_, _, _) => TargetForm::Range,
        Reference::Upward(_, a, _) => known_as(scope, a.get(), TargetForm::Range),
        Reference::Downward(_, a, _) => known_as(scope, a.get(), TargetForm::Range),
    }
}

/// In which form the first part of a target is shown.
pub fn target_form(scope: &Scope, target: &Lhs) -> TargetForm
    ensures { result ≡ form_of_target (scope_of scope.now) (target_of target.now) }
{
    match first_part(scope, target) {
        Some(form) => form,
        None => TargetForm::Name,
    }
}

/// In which form the first target of a block is shown, by the order of the text; a name where it assigns nothing.
pub fn statement_form(scope: &Scope, body: &Stmt) -> TargetForm
    ensures { result ≡ form_of_statement (scope_of scope.now) (statement_of body.now) }
{
    match first_target(scope, body) {
        Some(form) => form,
        None => TargetForm::Name,
    }
}

// Of the first part of a target.
#[cycle(part)]
fn first_part(scope: &Scope, target: &Lhs) -> Option<TargetForm>
    ensures { result ≡ part_of (scope_of scope.now) (target_of target.now) }
{
    match target {
        Lhs::Reference(reference) => Some(reference_form(scope, reference)),
        Lhs::Concatenation(_, inner) => first_part_of(scope, inner.as_slice()),
    }
}

// Of the first part of targets one after another.
#[tactic(auto, using(crate::proofs::Shown::part_here, crate::proofs::Shown::part_later))]
#[cycle(part)]
fn first_part_of(scope: &Scope, targets: &[Lhs]) -> Option<TargetForm>
    ensures { result ≡ part_of (scope_of scope.now) (targets_of (map target_of targets.now)) }
{
    for target in targets {
        if let Some(form) = first_part(scope, target) {
            return Some(form);
        }
    }
    None
}

// Of the first assignment of a statement.
#[cycle(target)]
fn first_target(scope: &Scope, st: &Stmt) -> Option<TargetForm>
    ensures { result ≡ target_in (scope_of scope.now) (statement_of st.now) }
{
    match st {
        Stmt::Block(_, _, inner) => first_of(scope, inner.as_slice()),
        Stmt::If(_, _, x) => first_target(scope, x.get()),
        Stmt::IfElse(_, _, x, y) => first_of_both(scope, x.get(), y.get()),
        Stmt::Case(_, _, _, arms) => first_of_arms(scope, arms.as_slice()),
        Stmt::Assign(target, _) => Some(target_form(scope, target)),
        Stmt::Empty(_) => None,
    }
}

// Of two statements.
#[cycle(target)]
fn first_of_both(scope: &Scope, x: &Stmt, y: &Stmt) -> Option<TargetForm>
    ensures { result ≡ or_else (target_in (scope_of scope.now) (statement_of x.now)) (target_in (scope_of scope.now) (statement_of y.now)) }
{
    match first_target(scope, x) {
        Some(form) => Some(form),
        None => first_target(scope, y),
    }
}

// Of statements one after another.
#[tactic(auto, using(crate::proofs::Shown::target_here, crate::proofs::Shown::target_later))]
#[cycle(target)]
fn first_of(scope: &Scope, statements: &[Stmt]) -> Option<TargetForm>
    ensures { result ≡ target_in (scope_of scope.now) (statements_of (map statement_of statements.now)) }
{
    for st in statements {
        if let Some(form) = first_target(scope, st) {
            return Some(form);
        }
    }
    None
}

// Of the items of a case.
#[tactic(auto, using(crate::proofs::Shown::arm_here, crate::proofs::Shown::arm_later))]
#[cycle(target)]
fn first_of_arms(scope: &Scope, arms: &[Arm]) -> Option<TargetForm>
    ensures { result ≡ target_in (scope_of scope.now) (statements_of (map arm_of arms.now)) }
{
    for arm in arms {
        if let Some(form) = first_of_arm(scope, arm) {
            return Some(form);
        }
    }
    None
}

// Of one item.
#[cycle(target)]
fn first_of_arm(scope: &Scope, arm: &Arm) -> Option<TargetForm>
    ensures { result ≡ target_in (scope_of scope.now) (arm_of arm.now) }
{
    match arm {
        Arm::Match(_, body) | Arm::Default(_, body) => first_target(scope, body.get()),
    }
}

/// The number of the first target in the text among the targets of a block, which are listed in the order of its sized statement with their
/// numbers in the text.
pub fn first_number(targets: &[Mention]) -> usize
    ensures { result ≡ number_of_first targets.now }
{
    targets
        .iter()
        .take_while(|target| target.order != 0)
        .count()
}
