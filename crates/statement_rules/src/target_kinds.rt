// What may write a target (IEEE Std 1364-2005, 6.1, 9.2).
ghost use Rattle.std.specs.Prelude.{◌≡◌, [], ◌∷◌, not, map, IfErr, OnOk};
ghost use Rattle.verilog_ast.specs.Views.{reference_of, target_of, targets_of};
ghost use Rattle.width_rules.specs.Entries.{scope_of};
ghost use Rattle.width_rules.specs.Faults.{IsFirst, first_name};
ghost use Rattle.width_rules.specs.Found.{meaning_of};
ghost use Rattle.statement_rules.specs.Targets.{is_writer, may_write, kind_fault, reference_kind, kind_faults};

use ls_text::Refusal;
use std::alloc::Global;
use verilog_ast::{Identifier, Lhs, Reference};
use width_rules::{Entry, Scope, Writer, refused_at};

// Whether what writes is what may write.
fn is_writer(by: Writer, writer: Writer) -> bool
    ensures { result ≡ is_writer by writer }
{
    match by {
        Writer::Nothing => false,
        Writer::Continuous => matches!(writer, Writer::Continuous),
        Writer::Clocked => matches!(writer, Writer::Clocked),
        Writer::Combinational => matches!(writer, Writer::Combinational),
    }
}

// Whether a name may be written by this.
fn may_write(by: Writer, entry: Entry) -> bool
    ensures { result ≡ may_write by (meaning_of entry) }
{
    match entry {
        Entry::Signal(x) => is_writer(by, x.writer),
        Entry::Constant(_) | Entry::Turn(_) | Entry::Genvar | Entry::Unknown => false,
    }
}

// 33 at a name that this may not write.
fn check_name(alloc: Global, scope: &Scope, by: Writer, name: Identifier) -> Result<(), Refusal>
    ensures faultless { OnOk result (kind_fault (scope_of scope.now) by name ≡ []) }
    ensures fault { IfErr result (IsFirst (kind_fault (scope_of scope.now) by name)) }
{
    let entry = scope.find(name.name);
    if !may_write(by, entry) {
        return Err(refused_at(alloc, 33, name));
    }
    Ok(())
}

// The same of a name with its select or without.
fn check_reference(
    alloc: Global,
    scope: &Scope,
    by: Writer,
    target: &Reference,
) -> Result<(), Refusal>
    ensures faultless { OnOk result (reference_kind (scope_of scope.now) by (reference_of target.now) ≡ []) }
    ensures fault { IfErr result (IsFirst (reference_kind (scope_of scope.now) by (reference_of target.now))) }
{
    match target {
        Reference::Whole(name) => check_name(alloc, scope, by, *name),
        Reference::Bit(name, _) => check_name(alloc, scope, by, *name),
        Reference::Part(name, _, _) => check_name(alloc, scope, by, *name),
        Reference::Upward(name, _, _) => check_name(alloc, scope, by, *name),
        Reference::Downward(name, _, _) => check_name(alloc, scope, by, *name),
    }
}

/// 33 BadTarget at the first part of a target, from left to right, that an assignment of this kind may not write (IEEE Std 1364-2005, 6.1,
/// 9.2); or want of memory. An output of an instance writes as a continuous assignment does.
#[cycle(check)]
pub fn check_target(alloc: Global, scope: &Scope, by: Writer, target: &Lhs) -> Result<(), Refusal>
    ensures faultless { OnOk result (kind_faults (scope_of scope.now) by (target_of target.now) ≡ []) }
    ensures fault { IfErr result (IsFirst (kind_faults (scope_of scope.now) by (target_of target.now))) }
{
    match target {
        Lhs::Reference(written) => check_reference(alloc, scope, by, written),
        Lhs::Concatenation(_, inner) => check_targets(alloc, scope, by, inner.as_slice()),
    }
}

// The same of targets one after another.
#[tactic(auto, using(width_rules::proofs::Firsts::earlier, width_rules::proofs::Firsts::later, width_rules::proofs::Firsts::neither, crate::proofs::Listing::kind_ahead, crate::proofs::Listing::kind_fault))]
#[cycle(check)]
fn check_targets(alloc: Global, scope: &Scope, by: Writer, list: &[Lhs]) -> Result<(), Refusal>
    ensures faultless { OnOk result (kind_faults (scope_of scope.now) by (targets_of (map target_of list.now)) ≡ []) }
    ensures fault { IfErr result (IsFirst (kind_faults (scope_of scope.now) by (targets_of (map target_of list.now)))) }
{
    for target in list {
        check_target(alloc, scope, by, target)?;
    }
    Ok(())
}
