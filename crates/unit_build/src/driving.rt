// What an output drives: the expression that it is connected to, sized as a target.
ghost use Rattle.std.specs.Prelude.{◌≡◌, ◌≤◌, ◌++◌, [], true, min, map, IsTrue, IfOk, IfErr};
ghost use Rattle.typed_ir.specs.Targets.{targets_of as parts_of};
ghost use Rattle.verilog_ast.specs.Expressions as t;
ghost use Rattle.verilog_ast.specs.Views as v;
ghost use Rattle.verilog_ast.specs.Views.{expression_of, reference_of};
ghost use Rattle.width_rules.specs.declared.due.Due.TheVariants.{AnyValue, ConstantOnly};
ghost use Rattle.width_rules.specs.Entries.{scope_of};
ghost use Rattle.width_rules.specs.Faults.{IsFirst, faults};
ghost use Rattle.width_rules.specs.References.{reference_faults};
ghost use Rattle.width_rules.specs.Sizes.{length};
ghost use Rattle.statement_rules.specs.Drives.{are_fixed};
ghost use Rattle.statement_rules.specs.Leaves.{leaf_of, leaves};
ghost use Rattle.statement_rules.specs.Targets.{target_length, parts, target_faults};
ghost use Rattle.width_rules.specs.Mentions.{numbered};
ghost use Rattle.width_rules.specs.Names.{expression_targets};
ghost use Rattle.unit_build.specs.ConnectionNodes.{target_or_none};
ghost use Rattle.typed_ir.specs.Nodes.{known_lanes};
ghost use Rattle.unit_build.specs.Outputs.{is_target, as_target, target_at, part_faults, output_faults, output_form, output_mentions};

use crate::shaping::{form_of, is_target};
use crate::sized_output::SizedOutput;
use ls_text::{NoMemory, Refusal};
use statement_rules::lay;
use std::alloc::Global;
use typed_ir::{Lane, Target, TargetForm};
use verilog_ast::{Expr, Reference};
use width_rules::{Due, Scope, TargetPart, connection_mentions, measure, refused, size_reference};

// Adds one part, and answers how many bits it takes.
fn add_part(
    alloc: Global,
    scope: &Scope,
    read: &Reference,
    parts: &mut Vec<TargetPart>,
) -> Result<u8, Refusal>
    ensures faultless { IfOk result (λ _. reference_faults (scope_of scope.now) ConstantOnly (reference_of read.now) ≡ []) }
    ensures few { IfOk result (λ width. width ≤ 128) }
    ensures width { IfOk result (λ width. width ≡ length (scope_of scope.now) (reference_of read.now)) }
    ensures parts { IfOk result (λ _. map leaf_of parts.new.items ≡ map leaf_of parts.old.items ++ leaves (scope_of scope.now) (t.Reference (reference_of read.now))) }
    ensures fault { IfErr result (IsFirst (reference_faults (scope_of scope.now) ConstantOnly (reference_of read.now))) }
{
    let part = size_reference(alloc, scope, Due::ConstantOnly, read)?;
    let width = part.width;
    parts.push(part)?;
    Ok(width)
}

// Reads what is no part of a target, and answers how many bits it takes.
fn read_value(alloc: Global, scope: &Scope, e: &Expr) -> Result<u8, Refusal>
    ensures faultless { IfOk result (λ _. faults (scope_of scope.now) AnyValue (expression_of e.now) ≡ []) }
    ensures few { IfOk result (λ width. width ≤ 128) }
    ensures width { IfOk result (λ width. width ≡ length (scope_of scope.now) (expression_of e.now)) }
    ensures fault { IfErr result (IsFirst (faults (scope_of scope.now) AnyValue (expression_of e.now))) }
{
    let value = measure(alloc, scope, Due::AnyValue, e)?;
    Ok(value.length)
}

// Adds the parts of what an output is connected to, and answers how many bits it takes. What is no part of a target is read and not added.
#[cycle(collect)]
fn collect(
    alloc: Global,
    scope: &Scope,
    e: &Expr,
    parts: &mut Vec<TargetPart>,
) -> Result<u8, Refusal>
    ensures faultless { IfOk result (λ _. part_faults (scope_of scope.now) (expression_of e.now) ≡ []) }
    ensures few { IfOk result (λ width. width ≤ 128) }
    ensures width { IfOk result (λ width. width ≡ length (scope_of scope.now) (expression_of e.now)) }
    ensures parts { IfOk result (λ _. map leaf_of parts.new.items ≡ map leaf_of parts.old.items ++ leaves (scope_of scope.now) (target_at (expression_of e.now))) }
    ensures fault { IfErr result (IsFirst (part_faults (scope_of scope.now) (expression_of e.now))) }
{
    match e {
        Expr::Read(read) => add_part(alloc, scope, read, parts),
        Expr::Concatenation(at, inner) => {
            let width = collect_all(alloc, scope, inner.as_slice(), parts)?;
            if width == 0 {
                return Err(refused(alloc, 26, *at, None));
            }
            if width > 128 {
                return Err(refused(alloc, 31, *at, None));
            }
            Ok(width)
        }
        Expr::Number(_, _)
        | Expr::Unary(_, _, _)
        | Expr::Binary(_, _, _)
        | Expr::Conditional(_, _, _)
        | Expr::Replication(_, _, _)
        | Expr::Bracketed(_, _) => read_value(alloc, scope, e),
    }
}

// Adds those of expressions one after another, and answers how many bits they take; 255 stands for all from 255 on.
#[tactic(auto, using(width_rules::proofs::Firsts::earlier, width_rules::proofs::Firsts::later, width_rules::proofs::Firsts::neither, crate::proofs::Listing::part_fault))]
#[cycle(collect)]
fn collect_all(
    alloc: Global,
    scope: &Scope,
    list: &[Expr],
    parts: &mut Vec<TargetPart>,
) -> Result<u8, Refusal>
    ensures faultless { IfOk result (λ _. part_faults (scope_of scope.now) (v.parts_of (map expression_of list.now)) ≡ []) }
    ensures width { IfOk result (λ width. width ≡ min (length (scope_of scope.now) (v.parts_of (map expression_of list.now))) 255) }
    ensures parts { IfOk result (λ _. map leaf_of parts.new.items ≡ map leaf_of parts.old.items ++ leaves (scope_of scope.now) (target_at (v.parts_of (map expression_of list.now)))) }
    ensures fault { IfErr result (IsFirst (part_faults (scope_of scope.now) (v.parts_of (map expression_of list.now)))) }
{
    let mut width = 0u8;
    for part in list {
        let more = collect(alloc, scope, part, parts)?;
        width = width.saturating_add(more);
    }
    Ok(width)
}

// Parts whose bits are all known.
fn lanes_of(alloc: Global, parts: Vec<Target>) -> Result<Vec<Lane>, NoMemory>
    requires { IsTrue (are_fixed (parts_of parts.items)) }
    ensures { IfOk result (λ lanes. lanes.items ≡ known_lanes (parts_of parts.items)) }
{
    let mut lanes = Vec::new(alloc);
    for part in parts {
        match part {
            Target::Fixed(lane) => lanes.push(lane)?,
            Target::Moving { .. } => unreachable!(),
        }
    }
    Ok(lanes)
}

// What a target drives.
#[tactic(auto, using(crate::proofs::Written::no_faults, crate::proofs::Written::first_fault, crate::proofs::Written::so_long))]
fn size_written(alloc: Global, scope: &Scope, e: &Expr) -> Result<SizedOutput, Refusal>
    requires { is_target (expression_of e.now) ≡ true }
    ensures faultless { IfOk result (λ _. target_faults (scope_of scope.now) ConstantOnly (target_at (expression_of e.now)) ≡ []) }
    ensures form { IfOk result (λ x. x.form ≡ output_form (target_at (expression_of e.now))) }
    ensures lanes { IfOk result (λ x. x.lanes.items ≡ known_lanes (parts (scope_of scope.now) 0 (target_at (expression_of e.now)))) }
    ensures width { IfOk result (λ x. x.width ≡ target_length (scope_of scope.now) (target_at (expression_of e.now))) }
    ensures mentions { IfOk result (λ x. x.mentions.items ≡ numbered 0 (expression_targets (expression_of e.now))) }
    ensures fault { IfErr result (IsFirst (target_faults (scope_of scope.now) ConstantOnly (target_at (expression_of e.now)))) }
{
    let mut parts = Vec::new(alloc);
    let width = collect(alloc, scope, e, &mut parts)?;
    let parts = lay(alloc, parts, width)?;
    let lanes = lanes_of(alloc, parts)?;
    let mentions = connection_mentions(alloc, e)?;
    Ok(SizedOutput {
        form: form_of(e),
        lanes,
        width,
        mentions,
    })
}

/// What an output drives that is connected to this expression: a target whose indices are constant (IEEE Std 1364-2005, 12.3.9). What is
/// no target drives nothing; that it isn't one is `check_output`'s fault.
///
/// Faults, the first one from left to right: of a target as of `size_target`, with 25 NotConstant at a net or variable in an index. Of what
/// is none the same, part by part: a part that is no target has those of `size_expr`, and counts in the width of its concatenation. Else
/// want of memory.
pub fn size_output(alloc: Global, scope: &Scope, e: &Expr) -> Result<SizedOutput, Refusal>
    ensures faultless { IfOk result (λ _. output_faults (scope_of scope.now) (expression_of e.now) ≡ []) }
    ensures form { IfOk result (λ x. x.form ≡ output_form (target_or_none (as_target (expression_of e.now)))) }
    ensures lanes { IfOk result (λ x. x.lanes.items ≡ known_lanes (parts (scope_of scope.now) 0 (target_or_none (as_target (expression_of e.now))))) }
    ensures width { IfOk result (λ x. x.width ≡ target_length (scope_of scope.now) (target_or_none (as_target (expression_of e.now)))) }
    ensures mentions { IfOk result (λ x. x.mentions.items ≡ output_mentions (expression_of e.now)) }
    ensures fault { IfErr result (IsFirst (output_faults (scope_of scope.now) (expression_of e.now))) }
{
    if is_target(e) {
        return size_written(alloc, scope, e);
    }
    let mut parts = Vec::new(alloc);
    let _width = collect(alloc, scope, e, &mut parts)?;
    Ok(SizedOutput {
        form: TargetForm::Name,
        lanes: Vec::new(alloc),
        width: 0,
        mentions: Vec::new(alloc),
    })
}
