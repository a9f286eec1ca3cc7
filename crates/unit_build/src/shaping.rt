// Expressions as targets: whether one is a target, and how it is shown.
ghost use Rattle.std.specs.Prelude.{◌≡◌, true, map};
ghost use Rattle.verilog_ast.specs.Views.{expression_of, reference_of, parts_of};
ghost use Rattle.unit_build.specs.Outputs as o;

use typed_ir::TargetForm;
use verilog_ast::{Expr, Reference};

// A name, with its select or without, is a target.
fn is_read(reference: &Reference) -> bool
    ensures { result ≡ o.is_target (reference_of reference.now) }
{
    match reference {
        Reference::Whole(_)
        | Reference::Bit(_, _)
        | Reference::Part(_, _, _)
        | Reference::Upward(_, _, _)
        | Reference::Downward(_, _, _) => true,
    }
}

/// Whether an expression is a target: a name, a select, or a concatenation of such.
#[cycle(target)]
pub fn is_target(e: &Expr) -> bool
    ensures { result ≡ o.is_target (expression_of e.now) }
{
    match e {
        Expr::Read(reference) => is_read(reference),
        Expr::Concatenation(_, parts) => are_targets(parts.as_slice()),
        Expr::Number(_, _)
        | Expr::Unary(_, _, _)
        | Expr::Binary(_, _, _)
        | Expr::Conditional(_, _, _)
        | Expr::Replication(_, _, _)
        | Expr::Bracketed(_, _) => false,
    }
}

// Whether all of these are.
#[tactic(auto, using(crate::proofs::Listing::parts_so))]
#[cycle(target)]
fn are_targets(parts: &[Expr]) -> bool
    ensures { result ≡ o.is_target (parts_of (map expression_of parts.now)) }
{
    for part in parts {
        if !is_target(part) {
            return false;
        }
    }
    true
}

// How a part is shown.
fn reference_form(reference: &Reference) -> TargetForm
    ensures { result ≡ o.output_form (o.target_at (reference_of reference.now)) }
{
    match reference {
        Reference::Whole(_) => TargetForm::Name,
        Reference::Bit(_, _) => TargetForm::Bit,
        Reference::Part(_, _, _) | Reference::Upward(_, _, _) | Reference::Downward(_, _, _) => {
            TargetForm::Range
        }
    }
}

/// How what an expression drives is shown: by its first part.
#[cycle(shown)]
pub fn form_of(e: &Expr) -> TargetForm
    ensures { result ≡ o.output_form (o.target_at (expression_of e.now)) }
{
    match e {
        Expr::Read(reference) => reference_form(reference),
        Expr::Concatenation(_, parts) => first_form(parts.as_slice()),
        Expr::Number(_, _)
        | Expr::Unary(_, _, _)
        | Expr::Binary(_, _, _)
        | Expr::Conditional(_, _, _)
        | Expr::Replication(_, _, _)
        | Expr::Bracketed(_, _) => TargetForm::Name,
    }
}

// The same of parts.
#[cycle(shown)]
fn first_form(parts: &[Expr]) -> TargetForm
    ensures { result ≡ o.output_form (o.target_at (parts_of (map expression_of parts.now))) }
{
    match parts.first() {
        Some(first) => form_of(first),
        None => TargetForm::Name,
    }
}
