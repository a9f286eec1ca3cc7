// Targets: the first fault of one from left to right, or its parts.
ghost use Rattle.std.specs.Prelude.{◌≡◌, ◌≤◌, ◌++◌, [], min, map, IfOk, IfErr};
ghost use Rattle.verilog_ast.specs.Views.{target_of, targets_of};
ghost use Rattle.width_rules.specs.Entries.{scope_of};
ghost use Rattle.width_rules.specs.Faults.{IsFirst};
ghost use Rattle.statement_rules.specs.Leaves.{leaf_of, leaves, bits_of, laid, shifted};
ghost use Rattle.statement_rules.specs.Targets.{target_length, parts, target_faults};
ghost use Rattle.typed_ir.specs.Targets.{target_of as part_of, targets_of as parts_of};

use crate::sized_target::SizedTarget;
use ls_text::{NoMemory, Refusal};
use std::alloc::Global;
use typed_ir::{Lane, Reach, Target};
use verilog_ast::Lhs;
use width_rules::{Due, Scope, TargetPart, refused, size_reference};

/// A target, as it stands left of an assignment or takes an output of an instance: its parts from left to right, with the bits of the
/// value that go to each (IEEE Std 1364-2005, 5.1.14, 6.1, 9.2). What is due are its indices: constants, but in a block's assignments.
///
/// Faults, the first one from left to right: those of `size_reference` at each name with its select, 25 NotConstant among them at a net
/// or variable in an index where a constant is due; and of a concatenation, behind those of its parts, 26 BadRange without a part or
/// 31 TooWide above 128 bits. Who may write it is `check_target`'s question. Else want of memory.
pub fn size_target(
    alloc: Global,
    scope: &Scope,
    due: Due,
    target: &Lhs,
) -> Result<SizedTarget, Refusal>
    ensures faultless { IfOk result (λ _. target_faults (scope_of scope.now) due (target_of target.now) ≡ []) }
    ensures width { IfOk result (λ x. x.width ≡ target_length (scope_of scope.now) (target_of target.now)) }
    ensures parts { IfOk result (λ x. parts_of x.parts.items ≡ parts (scope_of scope.now) 0 (target_of target.now)) }
    ensures fault { IfErr result (IsFirst (target_faults (scope_of scope.now) due (target_of target.now))) }
{
    let mut parts = Vec::new(alloc);
    let width = collect(alloc, scope, due, target, &mut parts)?;
    let parts = lay(alloc, parts, width)?;
    Ok(SizedTarget { parts, width })
}

// Adds the parts of a target, and answers how many bits they take.
#[cycle(collect)]
fn collect(
    alloc: Global,
    scope: &Scope,
    due: Due,
    target: &Lhs,
    parts: &mut Vec<TargetPart>,
) -> Result<u8, Refusal>
    ensures faultless { IfOk result (λ _. target_faults (scope_of scope.now) due (target_of target.now) ≡ []) }
    ensures some { IfOk result (λ width. 1 ≤ width) }
    ensures few { IfOk result (λ width. width ≤ 128) }
    ensures width { IfOk result (λ width. width ≡ target_length (scope_of scope.now) (target_of target.now)) }
    ensures parts { IfOk result (λ _. map leaf_of parts.new.items ≡ map leaf_of parts.old.items ++ leaves (scope_of scope.now) (target_of target.now)) }
    ensures fault { IfErr result (IsFirst (target_faults (scope_of scope.now) due (target_of target.now))) }
{
    match target {
        Lhs::Reference(read) => {
            let part = size_reference(alloc, scope, due, read)?;
            let width = part.width;
            parts.push(part)?;
            Ok(width)
        }
        Lhs::Concatenation(at, inner) => {
            let width = collect_all(alloc, scope, due, inner.as_slice(), parts)?;
            if width == 0 {
                return Err(refused(alloc, 26, *at, None));
            }
            if width > 128 {
                return Err(refused(alloc, 31, *at, None));
            }
            Ok(width)
        }
    }
}

// Adds the parts of targets one after another, and answers how many bits they take; 255 stands for all from 255 on.
#[tactic(auto, using(width_rules::proofs::Firsts::earlier, width_rules::proofs::Firsts::later, width_rules::proofs::Firsts::neither, crate::proofs::Listing::target_ahead, crate::proofs::Listing::target_fault))]
#[cycle(collect)]
fn collect_all(
    alloc: Global,
    scope: &Scope,
    due: Due,
    list: &[Lhs],
    parts: &mut Vec<TargetPart>,
) -> Result<u8, Refusal>
    ensures faultless { IfOk result (λ _. target_faults (scope_of scope.now) due (targets_of (map target_of list.now)) ≡ []) }
    ensures width { IfOk result (λ width. width ≡ min (target_length (scope_of scope.now) (targets_of (map target_of list.now))) 255) }
    ensures parts { IfOk result (λ _. map leaf_of parts.new.items ≡ map leaf_of parts.old.items ++ leaves (scope_of scope.now) (targets_of (map target_of list.now))) }
    ensures fault { IfErr result (IsFirst (target_faults (scope_of scope.now) due (targets_of (map target_of list.now)))) }
{
    let mut width = 0u8;
    for target in list {
        let more = collect(alloc, scope, due, target, parts)?;
        width = width.saturating_add(more);
    }
    Ok(width)
}

// A part where so many bits stand right of it.
fn shift(target: Target, by: u8) -> Target
    ensures { part_of result ≡ shifted by (part_of target) }
{
    match target {
        Target::Fixed(lane) => Target::Fixed(Lane {
            shift: by,
            span: lane.span,
        }),
        Target::Moving { reach, index } => {
            let reach = Reach {
                shift: by,
                signal: reach.signal,
                total: reach.total,
                width: reach.width,
                below: reach.below,
                signed: reach.signed,
            };
            Target::Moving { reach, index }
        }
    }
}

/// Parts that take so many bits together, each where the bits of those right of it stand below it.
pub fn lay(alloc: Global, parts: Vec<TargetPart>, width: u8) -> Result<Vec<Target>, NoMemory>
    requires { width ≡ bits_of (map leaf_of parts.items) }
    ensures { IfOk result (λ targets. parts_of targets.items ≡ laid 0 (map leaf_of parts.items)) }
{
    let mut below = width;
    let mut targets = Vec::new(alloc);
    for part in parts {
        let TargetPart { target, width } = part;
        below -= width;
        targets.push(shift(target, below))?;
    }
    Ok(targets)
}
