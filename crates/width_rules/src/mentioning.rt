// The walk over an expression for the names that it reads. Each part is walked once, but for an index that is a constant up to its end.
ghost use Rattle.std.specs.Prelude.{◌++◌, IfOk, map};
ghost use Rattle.verilog_ast.specs.Views.{expression_of, reference_of, parts_of};
ghost use Rattle.width_rules.specs.Entries.{scope_of};
ghost use Rattle.width_rules.specs.Scopes.{is_signal as means_signal};
ghost use Rattle.width_rules.specs.Sizes.{is_constant as has_no_signal};
ghost use Rattle.width_rules.specs.Adding.{Notes};
ghost use Rattle.width_rules.specs.Names.{expression_names, signal_name, run_time};

use crate::constants::{is_constant, is_signal};
use crate::noting::note_signal;
use crate::scope::Scope;
use ls_text::NoMemory;
use typed_ir::Mention;
use verilog_ast::{Expr, Identifier, Reference};

/// Adds the names that an expression reads, with their numbers from this one on, and answers the next number.
#[tactic(auto, using(crate::proofs::Noted::notes_none))]
#[cycle(reading)]
pub fn read(scope: &Scope, e: &Expr, from: u32, list: &mut Vec<Mention>) -> Result<u32, NoMemory>
    ensures { IfOk result (λ next. Notes list.old.items list.new.items from next (expression_names (scope_of scope.now) (expression_of e.now))) }
{
    match e {
        Expr::Number(_, _) => Ok(from),
        Expr::Read(reference) => read_reference(scope, reference, from, list),
        Expr::Unary(_, _, a) => read(scope, a.get(), from, list),
        Expr::Binary(_, a, b) => read_both(scope, a.get(), b.get(), from, list),
        Expr::Conditional(c, a, b) => read_three(scope, c.get(), a.get(), b.get(), from, list),
        Expr::Concatenation(_, parts) => read_parts(scope, parts.as_slice(), from, list),
        Expr::Replication(_, _, parts) => read_parts(scope, parts.as_slice(), from, list),
        Expr::Bracketed(_, a) => read(scope, a.get(), from, list),
    }
}

// Those of two expressions.
#[cycle(reading)]
fn read_both(
    scope: &Scope,
    a: &Expr,
    b: &Expr,
    from: u32,
    list: &mut Vec<Mention>,
) -> Result<u32, NoMemory>
    ensures { IfOk result (λ next. Notes list.old.items list.new.items from next (expression_names (scope_of scope.now) (expression_of a.now) ++ expression_names (scope_of scope.now) (expression_of b.now))) }
{
    let next = read(scope, a, from, list)?;
    let end = read(scope, b, next, list)?;
    Ok(end)
}

// Those of a condition and of what it chooses from.
#[cycle(reading)]
fn read_three(
    scope: &Scope,
    c: &Expr,
    a: &Expr,
    b: &Expr,
    from: u32,
    list: &mut Vec<Mention>,
) -> Result<u32, NoMemory>
    ensures { IfOk result (λ next. Notes list.old.items list.new.items from next
        (expression_names (scope_of scope.now) (expression_of c.now) ++ (expression_names (scope_of scope.now) (expression_of a.now) ++ expression_names (scope_of scope.now) (expression_of b.now)))) }
{
    let next = read(scope, c, from, list)?;
    let after = read(scope, a, next, list)?;
    let end = read(scope, b, after, list)?;
    Ok(end)
}

// Those of the parts of a concatenation.
#[tactic(auto, using(crate::proofs::Noted::left_all, crate::proofs::Listing::parts_read))]
#[cycle(reading)]
fn read_parts(
    scope: &Scope,
    parts: &[Expr],
    from: u32,
    list: &mut Vec<Mention>,
) -> Result<u32, NoMemory>
    ensures { IfOk result (λ next. Notes list.old.items list.new.items from next (expression_names (scope_of scope.now) (parts_of (map expression_of parts.now)))) }
{
    let mut next = from;
    for part in parts {
        next = read(scope, part, next, list)?;
    }
    Ok(next)
}

// Those of a name with its select or without.
#[cycle(reading)]
fn read_reference(
    scope: &Scope,
    reference: &Reference,
    from: u32,
    list: &mut Vec<Mention>,
) -> Result<u32, NoMemory>
    ensures { IfOk result (λ next. Notes list.old.items list.new.items from next (expression_names (scope_of scope.now) (reference_of reference.now))) }
{
    match reference {
        Reference::Whole(n) => note_signal(scope, *n, from, list),
        Reference::Bit(n, a) => read_select(scope, *n, a.get(), from, list),
        Reference::Part(n, _, _) => note_signal(scope, *n, from, list),
        Reference::Upward(n, a, _) => read_select(scope, *n, a.get(), from, list),
        Reference::Downward(n, a, _) => read_select(scope, *n, a.get(), from, list),
    }
}

// Those of a name and its index.
#[cycle(reading)]
fn read_select(
    scope: &Scope,
    name: Identifier,
    index: &Expr,
    from: u32,
    list: &mut Vec<Mention>,
) -> Result<u32, NoMemory>
    ensures { IfOk result (λ next. Notes list.old.items list.new.items from next
        (signal_name (scope_of scope.now) name ++ run_time (means_signal (scope_of scope.now name.name.0)) (has_no_signal (scope_of scope.now) (expression_of index.now)) (expression_names (scope_of scope.now) (expression_of index.now)))) }
{
    let next = note_signal(scope, name, from, list)?;
    let end = read_index(scope, name, index, next, list)?;
    Ok(end)
}

/// Adds what the index of a name reads where it is known at run time alone.
#[tactic(auto, using(crate::proofs::Noted::notes_none))]
#[cycle(reading)]
pub fn read_index(
    scope: &Scope,
    name: Identifier,
    index: &Expr,
    from: u32,
    list: &mut Vec<Mention>,
) -> Result<u32, NoMemory>
    ensures { IfOk result (λ next. Notes list.old.items list.new.items from next
        (run_time (means_signal (scope_of scope.now name.name.0)) (has_no_signal (scope_of scope.now) (expression_of index.now)) (expression_names (scope_of scope.now) (expression_of index.now)))) }
{
    if !is_signal(scope, name.name) {
        return Ok(from);
    }
    if is_constant(scope, index) {
        return Ok(from);
    }
    read(scope, index, from, list)
}
