// The names that are asked for, of an expression that is read, of labels and of an assignment.
ghost use Rattle.std.specs.Prelude.{◌++◌, IfOk, map};
ghost use Rattle.verilog_ast.specs.Views.{expression_of, target_of, label_of};
ghost use Rattle.width_rules.specs.Entries.{scope_of};
ghost use Rattle.width_rules.specs.Adding.{Notes};
ghost use Rattle.width_rules.specs.Mentions.{listing_of, label_names, labels_names};
ghost use Rattle.width_rules.specs.Names.{expression_names, index_names};

use crate::asked::Asked;
use crate::mentioning::read;
use crate::scope::Scope;
use crate::targeting::{read_indices, write};
use ls_text::NoMemory;
use typed_ir::Mention;
use verilog_ast::{Expr, Label, Lhs};

/// Adds those of an expression that is read, with their numbers from this one on, and answers the next number.
#[tactic(auto, using(crate::proofs::Noted::notes_none))]
pub fn list_expression(
    asked: Asked,
    scope: &Scope,
    e: &Expr,
    from: u32,
    list: &mut Vec<Mention>,
) -> Result<u32, NoMemory>
    ensures { IfOk result (λ next. Notes list.old.items list.new.items from next ((listing_of (scope_of scope.now) asked).expression (expression_of e.now))) }
{
    match asked {
        Asked::Reads => read(scope, e, from, list),
        Asked::Targets => Ok(from),
    }
}

// Those that an assignment reads.
fn read_assignment(
    scope: &Scope,
    target: &Lhs,
    value: &Expr,
    from: u32,
    list: &mut Vec<Mention>,
) -> Result<u32, NoMemory>
    ensures { IfOk result (λ next. Notes list.old.items list.new.items from next (index_names (scope_of scope.now) (target_of target.now) ++ expression_names (scope_of scope.now) (expression_of value.now))) }
{
    let next = read_indices(scope, target, from, list)?;
    let end = read(scope, value, next, list)?;
    Ok(end)
}

/// Adds those of an assignment, and answers the next number.
pub fn list_assignment(
    asked: Asked,
    scope: &Scope,
    target: &Lhs,
    value: &Expr,
    from: u32,
    list: &mut Vec<Mention>,
) -> Result<u32, NoMemory>
    ensures { IfOk result (λ next. Notes list.old.items list.new.items from next ((listing_of (scope_of scope.now) asked).assignment (target_of target.now) (expression_of value.now))) }
{
    match asked {
        Asked::Reads => read_assignment(scope, target, value, from, list),
        Asked::Targets => write(target, from, list),
    }
}

// Adds those of a label: a literal with don't-cares has none.
#[tactic(auto, using(crate::proofs::Noted::notes_none))]
fn list_label(
    asked: Asked,
    scope: &Scope,
    label: &Label,
    from: u32,
    list: &mut Vec<Mention>,
) -> Result<u32, NoMemory>
    ensures { IfOk result (λ next. Notes list.old.items list.new.items from next (label_names (listing_of (scope_of scope.now) asked) (label_of label.now))) }
{
    match label {
        Label::Pattern(_, _) => Ok(from),
        Label::Expr(value) => list_expression(asked, scope, value.get(), from, list),
    }
}

/// Adds those of the labels of an item of a case, and answers the next number.
#[tactic(auto, using(crate::proofs::Noted::left_all, crate::proofs::Listing::labels_listed))]
pub fn list_labels(
    asked: Asked,
    scope: &Scope,
    labels: &[Label],
    from: u32,
    list: &mut Vec<Mention>,
) -> Result<u32, NoMemory>
    ensures { IfOk result (λ next. Notes list.old.items list.new.items from next (labels_names (listing_of (scope_of scope.now) asked) (map label_of labels.now))) }
{
    let mut next = from;
    for label in labels {
        next = list_label(asked, scope, label, next, list)?;
    }
    Ok(next)
}
