// The walks over a target, for the names that it writes and for what its indices read.
ghost use Rattle.std.specs.Prelude.{◌≡◌, IfOk, map};
ghost use Rattle.verilog_ast.specs.Views.{expression_of, reference_of, parts_of, target_of, targets_of};
ghost use Rattle.width_rules.specs.Entries.{scope_of};
ghost use Rattle.width_rules.specs.Adding.{Notes};
ghost use Rattle.width_rules.specs.Mentions.{numbered};
ghost use Rattle.width_rules.specs.Names.{target_names, index_names, index_of, reference_name, expression_targets};

use crate::mentioning::read_index;
use crate::noting::note;
use crate::scope::Scope;
use ls_text::NoMemory;
use std::alloc::Global;
use typed_ir::Mention;
use verilog_ast::{Expr, Lhs, Reference};

/// The names that a target writes, part by part, with their numbers from 0; or want of memory.
pub fn target_mentions(alloc: Global, target: &Lhs) -> Result<Vec<Mention>, NoMemory>
    ensures { IfOk result (λ list. list.items ≡ numbered 0 (target_names (target_of target.now))) }
{
    let mut list = Vec::new(alloc);
    let _next = write(target, 0, &mut list)?;
    Ok(list)
}

/// The same of a target that stands as an expression, as in a connection of an output; or want of memory.
pub fn connection_mentions(alloc: Global, e: &Expr) -> Result<Vec<Mention>, NoMemory>
    ensures { IfOk result (λ list. list.items ≡ numbered 0 (expression_targets (expression_of e.now))) }
{
    let mut list = Vec::new(alloc);
    let _next = connect(e, 0, &mut list)?;
    Ok(list)
}

// Adds the name that is written.
fn write_reference(
    reference: &Reference,
    from: u32,
    list: &mut Vec<Mention>,
) -> Result<u32, NoMemory>
    ensures { IfOk result (λ next. Notes list.old.items list.new.items from next (reference_name (reference_of reference.now))) }
{
    match reference {
        Reference::Whole(n) => note(*n, from, list),
        Reference::Bit(n, _) => note(*n, from, list),
        Reference::Part(n, _, _) => note(*n, from, list),
        Reference::Upward(n, _, _) => note(*n, from, list),
        Reference::Downward(n, _, _) => note(*n, from, list),
    }
}

/// Adds the names that a target writes, with their numbers from this one on, and answers the next number.
#[cycle(write)]
pub fn write(target: &Lhs, from: u32, list: &mut Vec<Mention>) -> Result<u32, NoMemory>
    ensures { IfOk result (λ next. Notes list.old.items list.new.items from next (target_names (target_of target.now))) }
{
    match target {
        Lhs::Reference(reference) => write_reference(reference, from, list),
        Lhs::Concatenation(_, inner) => write_all(inner.as_slice(), from, list),
    }
}

// Those of targets one after another.
#[tactic(auto, using(crate::proofs::Noted::left_all, crate::proofs::Listing::targets_written))]
#[cycle(write)]
fn write_all(targets: &[Lhs], from: u32, list: &mut Vec<Mention>) -> Result<u32, NoMemory>
    ensures { IfOk result (λ next. Notes list.old.items list.new.items from next (target_names (targets_of (map target_of targets.now)))) }
{
    let mut next = from;
    for target in targets {
        next = write(target, next, list)?;
    }
    Ok(next)
}

// Adds the names that are written by an expression as a target.
#[tactic(auto, using(crate::proofs::Noted::notes_none))]
#[cycle(connect)]
fn connect(e: &Expr, from: u32, list: &mut Vec<Mention>) -> Result<u32, NoMemory>
    ensures { IfOk result (λ next. Notes list.old.items list.new.items from next (expression_targets (expression_of e.now))) }
{
    match e {
        Expr::Read(reference) => connect_reference(reference, from, list),
        Expr::Concatenation(_, parts) => connect_all(parts.as_slice(), from, list),
        Expr::Number(_, _) => Ok(from),
        Expr::Unary(_, _, _) => Ok(from),
        Expr::Binary(_, _, _) => Ok(from),
        Expr::Conditional(_, _, _) => Ok(from),
        Expr::Replication(_, _, _) => Ok(from),
        Expr::Bracketed(_, _) => Ok(from),
    }
}

// The name of a reference.
fn connect_reference(
    reference: &Reference,
    from: u32,
    list: &mut Vec<Mention>,
) -> Result<u32, NoMemory>
    ensures { IfOk result (λ next. Notes list.old.items list.new.items from next (expression_targets (reference_of reference.now))) }
{
    match reference {
        Reference::Whole(n) => note(*n, from, list),
        Reference::Bit(n, _) => note(*n, from, list),
        Reference::Part(n, _, _) => note(*n, from, list),
        Reference::Upward(n, _, _) => note(*n, from, list),
        Reference::Downward(n, _, _) => note(*n, from, list),
    }
}

// Those of expressions one after another.
#[tactic(auto, using(crate::proofs::Noted::left_all, crate::proofs::Listing::parts_written))]
#[cycle(connect)]
fn connect_all(parts: &[Expr], from: u32, list: &mut Vec<Mention>) -> Result<u32, NoMemory>
    ensures { IfOk result (λ next. Notes list.old.items list.new.items from next (expression_targets (parts_of (map expression_of parts.now)))) }
{
    let mut next = from;
    for part in parts {
        next = connect(part, next, list)?;
    }
    Ok(next)
}

// Adds what the index of a name that is written reads.
#[tactic(auto, using(crate::proofs::Noted::notes_none))]
fn read_written(
    scope: &Scope,
    reference: &Reference,
    from: u32,
    list: &mut Vec<Mention>,
) -> Result<u32, NoMemory>
    ensures { IfOk result (λ next. Notes list.old.items list.new.items from next (index_of (scope_of scope.now) (reference_of reference.now))) }
{
    match reference {
        Reference::Whole(_) => Ok(from),
        Reference::Bit(n, a) => read_index(scope, *n, a.get(), from, list),
        Reference::Part(_, _, _) => Ok(from),
        Reference::Upward(n, a, _) => read_index(scope, *n, a.get(), from, list),
        Reference::Downward(n, a, _) => read_index(scope, *n, a.get(), from, list),
    }
}

/// Adds what the indices of a target read, part by part, and answers the next number.
#[cycle(indices)]
pub fn read_indices(
    scope: &Scope,
    target: &Lhs,
    from: u32,
    list: &mut Vec<Mention>,
) -> Result<u32, NoMemory>
    ensures { IfOk result (λ next. Notes list.old.items list.new.items from next (index_names (scope_of scope.now) (target_of target.now))) }
{
    match target {
        Lhs::Reference(reference) => read_written(scope, reference, from, list),
        Lhs::Concatenation(_, inner) => read_all(scope, inner.as_slice(), from, list),
    }
}

// Those of targets one after another.
#[tactic(auto, using(crate::proofs::Noted::left_all, crate::proofs::Listing::targets_read))]
#[cycle(indices)]
fn read_all(
    scope: &Scope,
    targets: &[Lhs],
    from: u32,
    list: &mut Vec<Mention>,
) -> Result<u32, NoMemory>
    ensures { IfOk result (λ next. Notes list.old.items list.new.items from next (index_names (scope_of scope.now) (targets_of (map target_of targets.now)))) }
{
    let mut next = from;
    for target in targets {
        next = read_indices(scope, target, next, list)?;
    }
    Ok(next)
}
