// Names and selects that are written: parts of targets, each as if nothing stood right of it.
ghost use Rattle.std.specs.Prelude.{◌≡◌, [], IfOk, IfErr};
ghost use Rattle.typed_ir.specs.Targets.{target_of};
ghost use Rattle.verilog_ast.specs.Expressions as e;
ghost use Rattle.verilog_ast.specs.Views.{expression_of, reference_of};
ghost use Rattle.width_rules.specs.declared.due.Due.TheVariants.{ConstantOnly};
ghost use Rattle.width_rules.specs.Constants.{integer};
ghost use Rattle.width_rules.specs.Entries.{scope_of};
ghost use Rattle.width_rules.specs.Faults.{IsFirst};
ghost use Rattle.width_rules.specs.Found.{meaning_of};
ghost use Rattle.width_rules.specs.References.{reference_part, target_name_faults, reference_faults};
ghost use Rattle.width_rules.specs.Runs.{run_select_faults, run_part};
ghost use Rattle.width_rules.specs.Sizes.{length, count_of};

use crate::direction::{Direction, down_of};
use crate::due::Due;
use crate::entry::Entry;
use crate::faults::refused_at;
use crate::measuring::{number, own};
use crate::scope::Scope;
use crate::selecting::{bits_of, range, reach, width_of};
use crate::target_part::TargetPart;
use crate::whole::whole_number;
use ls_text::Refusal;
use std::alloc::Global;
use typed_ir::SignalId;
use verilog_ast::{Expr, Identifier, Reference};

/// A name that is written, with its select or without: the part of a target that takes the lowest bits of a value, as if nothing stood
/// right of it (IEEE Std 1364-2005, 5.2.1). What is due are its indices, constants left of `assign`; bounds and widths are constant always.
///
/// Faults, the first one from left to right: 29 UnknownName where the name is not declared; those of `size_expr` in its select; 26
/// BadRange at a width below 1; 31 TooWide at the name of more than 128 bits; 32 BadSelect at the name where known bits don't lie in the
/// declared range or the name has no bits to select. Who may write it is no question here. Else want of memory.
#[tactic(auto, using(crate::proofs::Firsts::earlier, crate::proofs::Firsts::later, crate::proofs::Firsts::neither, crate::proofs::Lengths::upward_is, crate::proofs::Lengths::downward_is))]
pub fn size_reference(
    alloc: Global,
    scope: &Scope,
    due: Due,
    target: &Reference,
) -> Result<TargetPart, Refusal>
    ensures faultless { IfOk result (λ _. reference_faults (scope_of scope.now) due (reference_of target.now) ≡ []) }
    ensures width { IfOk result (λ x. x.width ≡ length (scope_of scope.now) (reference_of target.now)) }
    ensures part { IfOk result (λ x. target_of x.target ≡ reference_part (scope_of scope.now) 0 (reference_of target.now)) }
    ensures fault { IfErr result (IsFirst (reference_faults (scope_of scope.now) due (reference_of target.now))) }
{
    match target {
        Reference::Whole(name) => whole(alloc, scope, *name),
        Reference::Bit(name, index) => bit(alloc, scope, due, *name, index.get()),
        Reference::Part(name, high, low) => part(alloc, scope, *name, high.get(), low.get()),
        Reference::Upward(name, base, width) => {
            let direction = Direction::Upward;
            run(alloc, scope, due, direction, *name, base.get(), width.get())
        }
        Reference::Downward(name, base, width) => {
            let direction = Direction::Downward;
            run(alloc, scope, due, direction, *name, base.get(), width.get())
        }
    }
}

// What a name stands for that a target may name, be it of the wrong kind: else 29.
fn named(alloc: Global, scope: &Scope, name: Identifier) -> Result<Entry, Refusal>
    ensures faultless { IfOk result (λ _. target_name_faults (scope_of scope.now name.name.0) name ≡ []) }
    ensures meaning { IfOk result (λ entry. meaning_of entry ≡ scope_of scope.now name.name.0) }
    ensures fault { IfErr result (IsFirst (target_name_faults (scope_of scope.now name.name.0) name)) }
{
    let entry = scope.find(name.name);
    match entry {
        Entry::Signal(_) | Entry::Constant(_) | Entry::Turn(_) | Entry::Genvar => Ok(entry),
        Entry::Unknown => Err(refused_at(alloc, 29, name)),
    }
}

// A name without a select.
#[tactic(auto, using(crate::proofs::Firsts::earlier, crate::proofs::Firsts::later, crate::proofs::Firsts::neither, crate::proofs::Lengths::whole_is))]
fn whole(alloc: Global, scope: &Scope, name: Identifier) -> Result<TargetPart, Refusal>
    ensures faultless { IfOk result (λ _. target_name_faults (scope_of scope.now name.name.0) name ≡ []) }
    ensures width { IfOk result (λ x. x.width ≡ length (scope_of scope.now) (e.Whole name)) }
    ensures part { IfOk result (λ x. target_of x.target ≡ reference_part (scope_of scope.now) 0 (e.Whole name)) }
    ensures fault { IfErr result (IsFirst (target_name_faults (scope_of scope.now name.name.0) name)) }
{
    match scope.find(name.name) {
        Entry::Signal(x) => Ok(bits_of(x.signal, 0, x.width)),
        Entry::Constant(x) | Entry::Turn(x) => Ok(bits_of(SignalId(0), 0, x.bits.width)),
        Entry::Genvar => Ok(bits_of(SignalId(0), 0, 1)),
        Entry::Unknown => Err(refused_at(alloc, 29, name)),
    }
}

// `x[i]`
#[tactic(auto, using(crate::proofs::Firsts::earlier, crate::proofs::Firsts::later, crate::proofs::Firsts::neither, crate::proofs::Lengths::bit_is))]
fn bit(
    alloc: Global,
    scope: &Scope,
    due: Due,
    name: Identifier,
    a: &Expr,
) -> Result<TargetPart, Refusal>
    ensures faultless { IfOk result (λ _. reference_faults (scope_of scope.now) due (e.BitSelect name (expression_of a.now)) ≡ []) }
    ensures width { IfOk result (λ x. x.width ≡ length (scope_of scope.now) (e.BitSelect name (expression_of a.now))) }
    ensures part { IfOk result (λ x. target_of x.target ≡ reference_part (scope_of scope.now) 0 (e.BitSelect name (expression_of a.now))) }
    ensures fault { IfErr result (IsFirst (reference_faults (scope_of scope.now) due (e.BitSelect name (expression_of a.now)))) }
{
    let entry = named(alloc, scope, name)?;
    let index = own(alloc, scope, due, a)?;
    reach(alloc, entry, name, 1, 0, index)
}

// `x[base +: width]` or `x[base -: width]`
fn run(
    alloc: Global,
    scope: &Scope,
    due: Due,
    direction: Direction,
    name: Identifier,
    a: &Expr,
    b: &Expr,
) -> Result<TargetPart, Refusal>
    ensures faultless { IfOk result (λ _. run_select_faults (target_name_faults (scope_of scope.now name.name.0) name) (scope_of scope.now) due direction name (expression_of a.now) (expression_of b.now) ≡ []) }
    ensures width { IfOk result (λ x. x.width ≡ count_of (integer (scope_of scope.now) (expression_of b.now))) }
    ensures part { IfOk result (λ x. target_of x.target ≡ run_part (scope_of scope.now) direction name (expression_of a.now) (expression_of b.now)) }
    ensures fault { IfErr result (IsFirst (run_select_faults (target_name_faults (scope_of scope.now name.name.0) name) (scope_of scope.now) due direction name (expression_of a.now) (expression_of b.now))) }
{
    let entry = named(alloc, scope, name)?;
    let base = own(alloc, scope, due, a)?;
    let found = number(alloc, scope, b)?;
    let width = width_of(alloc, name, b, found)?;
    reach(alloc, entry, name, width, down_of(direction, width), base)
}

// `x[high:low]`
fn part(
    alloc: Global,
    scope: &Scope,
    name: Identifier,
    a: &Expr,
    b: &Expr,
) -> Result<TargetPart, Refusal>
    ensures faultless { IfOk result (λ _. reference_faults (scope_of scope.now) ConstantOnly (e.PartSelect name (expression_of a.now) (expression_of b.now)) ≡ []) }
    ensures width { IfOk result (λ x. x.width ≡ length (scope_of scope.now) (e.PartSelect name (expression_of a.now) (expression_of b.now))) }
    ensures part { IfOk result (λ x. target_of x.target ≡ reference_part (scope_of scope.now) 0 (e.PartSelect name (expression_of a.now) (expression_of b.now))) }
    ensures fault { IfErr result (IsFirst (reference_faults (scope_of scope.now) ConstantOnly (e.PartSelect name (expression_of a.now) (expression_of b.now)))) }
{
    let entry = named(alloc, scope, name)?;
    let high = number(alloc, scope, a)?;
    let low = number(alloc, scope, b)?;
    let high = whole_number(high.bits, high.signed);
    let low = whole_number(low.bits, low.signed);
    range(alloc, entry, name, high, low)
}
