// Whether an expression is a constant (IEEE Std 1364-2005, 5.2.1).
ghost use Rattle.std.specs.Prelude.{◌≡◌, map, not};
ghost use Rattle.verilog_ast.specs.Views.{expression_of, reference_of, parts_of};
ghost use Rattle.width_rules.specs.Entries.{scope_of};
ghost use Rattle.width_rules.specs.Scopes.{is_signal as means_signal};
ghost use Rattle.width_rules.specs.Sizes.{is_constant as has_no_signal};

use crate::entry::Entry;
use crate::scope::Scope;
use ls_text::NameId;
use verilog_ast::{Expr, Reference};

/// Whether a name is that of a net or variable.
pub fn is_signal(scope: &Scope, name: NameId) -> bool
    ensures { result ≡ means_signal (scope_of scope.now name.0) }
{
    match scope.find(name) {
        Entry::Signal(_) => true,
        Entry::Constant(_) | Entry::Turn(_) | Entry::Genvar | Entry::Unknown => false,
    }
}

/// Whether no net and no variable is in an expression.
#[cycle(constant)]
pub fn is_constant(scope: &Scope, e: &Expr) -> bool
    ensures { result ≡ has_no_signal (scope_of scope.now) (expression_of e.now) }
{
    match e {
        Expr::Number(_, _) => true,
        Expr::Read(reference) => is_constant_reference(scope, reference),
        Expr::Unary(_, _, a) => is_constant(scope, a.get()),
        Expr::Binary(_, a, b) => is_constant(scope, a.get()) && is_constant(scope, b.get()),
        Expr::Conditional(c, a, b) => {
            is_constant(scope, c.get())
                && (is_constant(scope, a.get()) && is_constant(scope, b.get()))
        }
        Expr::Concatenation(_, parts) => are_constant(scope, parts.as_slice()),
        Expr::Replication(_, count, parts) => {
            is_constant(scope, count.get()) && are_constant(scope, parts.as_slice())
        }
        Expr::Bracketed(_, a) => is_constant(scope, a.get()),
    }
}

// The same of a name with its select or without.
#[cycle(constant)]
fn is_constant_reference(scope: &Scope, reference: &Reference) -> bool
    ensures { result ≡ has_no_signal (scope_of scope.now) (reference_of reference.now) }
{
    match reference {
        Reference::Whole(n) => !is_signal(scope, n.name),
        Reference::Bit(n, a) => !is_signal(scope, n.name) && is_constant(scope, a.get()),
        Reference::Part(n, a, b) | Reference::Upward(n, a, b) | Reference::Downward(n, a, b) => {
            !is_signal(scope, n.name)
                && (is_constant(scope, a.get()) && is_constant(scope, b.get()))
        }
    }
}

// The same of the parts of a concatenation.
#[tactic(auto, using(crate::proofs::Listing::part_constant, crate::proofs::Listing::part_varies))]
#[cycle(constant)]
fn are_constant(scope: &Scope, parts: &[Expr]) -> bool
    ensures { result ≡ has_no_signal (scope_of scope.now) (parts_of (map expression_of parts.now)) }
{
    for part in parts {
        if !is_constant(scope, part) {
            return false;
        }
    }
    true
}
