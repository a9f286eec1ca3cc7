// What an output connection may drive (IEEE Std 1364-2005, 6.1, 12.3.9).
ghost use Rattle.std.specs.Prelude.{◌≡◌, [], map, IfErr, OnOk};
ghost use Rattle.verilog_ast.specs.Views.{expression_of, reference_of, parts_of};
ghost use Rattle.width_rules.specs.declared.writer.Writer.TheVariants as writer;
ghost use Rattle.width_rules.specs.Entries.{scope_of};
ghost use Rattle.width_rules.specs.Faults.{IsFirst};
ghost use Rattle.width_rules.specs.Found.{meaning_of};
ghost use Rattle.statement_rules.specs.Targets.{may_write, kind_fault};
ghost use Rattle.unit_build.specs.Connections.{connection_kinds, all_connection_kinds};
ghost use Rattle.unit_build.specs.Outputs.{part_kinds, output_kinds};
ghost use Rattle.unit_build.specs.Views.{connected_of};

use crate::connection::Connection;
use ls_text::Refusal;
use std::alloc::Global;
use verilog_ast::{Expr, Identifier, Reference};
use width_rules::{Entry, Scope, Writer, refused_at, refused_of};

// Whether a continuous assignment may write a name.
fn may_drive(entry: Entry) -> bool
    ensures { result ≡ may_write writer.Continuous (meaning_of entry) }
{
    match entry {
        Entry::Signal(x) => matches!(x.writer, Writer::Continuous),
        Entry::Constant(_) | Entry::Turn(_) | Entry::Genvar | Entry::Unknown => false,
    }
}

// 33 at a name that no continuous assignment may write.
fn check_name(alloc: Global, scope: &Scope, name: Identifier) -> Result<(), Refusal>
    ensures faultless { OnOk result (kind_fault (scope_of scope.now) writer.Continuous name ≡ []) }
    ensures fault { IfErr result (IsFirst (kind_fault (scope_of scope.now) writer.Continuous name)) }
{
    let entry = scope.find(name.name);
    if !may_drive(entry) {
        return Err(refused_at(alloc, 33, name));
    }
    Ok(())
}

// The same of a name with its select or without.
fn check_read(alloc: Global, scope: &Scope, read: &Reference) -> Result<(), Refusal>
    ensures faultless { OnOk result (part_kinds (scope_of scope.now) (reference_of read.now) ≡ []) }
    ensures fault { IfErr result (IsFirst (part_kinds (scope_of scope.now) (reference_of read.now))) }
{
    match read {
        Reference::Whole(name) => check_name(alloc, scope, *name),
        Reference::Bit(name, _) => check_name(alloc, scope, *name),
        Reference::Part(name, _, _) => check_name(alloc, scope, *name),
        Reference::Upward(name, _, _) => check_name(alloc, scope, *name),
        Reference::Downward(name, _, _) => check_name(alloc, scope, *name),
    }
}

// 33 at the first part of what an output is connected to that is no target, or that no continuous assignment may write.
#[cycle(check)]
fn check_part(alloc: Global, scope: &Scope, e: &Expr) -> Result<(), Refusal>
    ensures faultless { OnOk result (part_kinds (scope_of scope.now) (expression_of e.now) ≡ []) }
    ensures fault { IfErr result (IsFirst (part_kinds (scope_of scope.now) (expression_of e.now))) }
{
    match e {
        Expr::Read(read) => check_read(alloc, scope, read),
        Expr::Concatenation(_, parts) => check_parts(alloc, scope, parts.as_slice()),
        Expr::Number(_, _)
        | Expr::Unary(_, _, _)
        | Expr::Binary(_, _, _)
        | Expr::Conditional(_, _, _)
        | Expr::Replication(_, _, _)
        | Expr::Bracketed(_, _) => Err(refused_of(alloc, 33, e)),
    }
}

// The same of parts one after another.
#[tactic(auto, using(width_rules::proofs::Firsts::earlier, width_rules::proofs::Firsts::later, width_rules::proofs::Firsts::neither, crate::proofs::Listing::kind_ahead, crate::proofs::Listing::kind_fault))]
#[cycle(check)]
fn check_parts(alloc: Global, scope: &Scope, list: &[Expr]) -> Result<(), Refusal>
    ensures faultless { OnOk result (part_kinds (scope_of scope.now) (parts_of (map expression_of list.now)) ≡ []) }
    ensures fault { IfErr result (IsFirst (part_kinds (scope_of scope.now) (parts_of (map expression_of list.now)))) }
{
    for part in list {
        check_part(alloc, scope, part)?;
    }
    Ok(())
}

/// 33 BadTarget at the first part, from left to right, of what an output is connected to that is no target, at its first token, or that no
/// continuous assignment may write, at its name (IEEE Std 1364-2005, 6.1, 12.3.9); or want of memory. The parts are those of a
/// concatenation, also of one within another; anything else is one part.
#[tactic(auto, using(crate::proofs::Written::no_kinds, crate::proofs::Written::first_kind))]
pub fn check_output(alloc: Global, scope: &Scope, e: &Expr) -> Result<(), Refusal>
    ensures faultless { OnOk result (output_kinds (scope_of scope.now) (expression_of e.now) ≡ []) }
    ensures fault { IfErr result (IsFirst (output_kinds (scope_of scope.now) (expression_of e.now))) }
{
    check_part(alloc, scope, e)
}

// The same of a connection; an input has no target.
fn check_connection(alloc: Global, scope: &Scope, c: &Connection<'_>) -> Result<(), Refusal>
    ensures faultless { OnOk result (connection_kinds (scope_of scope.now) (connected_of c.now) ≡ []) }
    ensures fault { IfErr result (IsFirst (connection_kinds (scope_of scope.now) (connected_of c.now))) }
{
    if c.shape.input {
        return Ok(());
    }
    check_output(alloc, scope, c.value)
}

/// The same of connections one after another.
#[tactic(auto, using(width_rules::proofs::Firsts::earlier, width_rules::proofs::Firsts::later, width_rules::proofs::Firsts::neither, crate::proofs::Listing::checked_ahead, crate::proofs::Listing::checked_fault))]
pub fn check_connections(
    alloc: Global,
    scope: &Scope,
    list: &[Connection<'_>],
) -> Result<(), Refusal>
    ensures faultless { OnOk result (all_connection_kinds (scope_of scope.now) (map connected_of list.now) ≡ []) }
    ensures fault { IfErr result (IsFirst (all_connection_kinds (scope_of scope.now) (map connected_of list.now))) }
{
    for c in list {
        check_connection(alloc, scope, c)?;
    }
    Ok(())
}
