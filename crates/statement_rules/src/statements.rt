// The walk over a statement: the first fault of its expressions, or what it is sized. Each expression is walked once.
ghost use Rattle.std.specs.Prelude.{◌≡◌, ◌++◌, ◌&&◌, [], false, max, map, IfOk, IfErr, Some};
ghost use Rattle.typed_ir.specs.Stmts as s;
ghost use Rattle.typed_ir.specs.Statements.{stmt_of, sequence_of};
ghost use Rattle.verilog_ast.specs.Statements as w;
ghost use Rattle.verilog_ast.specs.Views.{expression_of, target_of, statement_of, arm_of, statements_of};
ghost use Rattle.statement_rules.specs.Cases.{arm_form, open_item, open_items, default_form, with_default, earlier_or, otherwise_or, sized_case};
ghost use Rattle.width_rules.specs.declared.due.Due.TheVariants.{AnyValue};
ghost use Rattle.width_rules.specs.Entries.{scope_of};
ghost use Rattle.width_rules.specs.Faults.{IsFirst, faults};
ghost use Rattle.width_rules.specs.Opened.{own};
ghost use Rattle.statement_rules.specs.Statements.{sized_statement, sized_default, items_length, items_signed, expression_faults};
ghost use Rattle.statement_rules.specs.Targets.{target_faults};

use crate::assigning::assigned;
use crate::closing::close_case;
use crate::labelling::measure_labels;
use crate::open_arm::OpenArm;
use crate::open_case::OpenCase;
use crate::open_labels::OpenLabels;
use crate::sized_target::SizedTarget;
use crate::targeting::size_target;
use ls_text::Refusal;
use std::alloc::Global;
use typed_ir::Stmt;
use verilog_ast::{Arm, Expr, Lhs, Stmt as Statement};
use width_rules::{Due, Scope, Writer, measure, own};

/// A statement of a block whose assignments are of this kind; or the first fault of its expressions from left to right, or want of
/// memory.
#[cycle(statement)]
pub fn sized(alloc: Global, scope: &Scope, by: Writer, st: &Statement) -> Result<Stmt, Refusal>
    ensures faultless { IfOk result (λ _. expression_faults (scope_of scope.now) (statement_of st.now) ≡ []) }
    ensures form { IfOk result (λ x. stmt_of x ≡ sized_statement (scope_of scope.now) by (statement_of st.now)) }
    ensures fault { IfErr result (IsFirst (expression_faults (scope_of scope.now) (statement_of st.now))) }
{
    match st {
        Statement::Block(_, _, list) => block(alloc, scope, by, list.as_slice()),
        Statement::If(_, c, x) => only_if(alloc, scope, by, c.get(), x.get()),
        Statement::IfElse(_, c, x, y) => if_else(alloc, scope, by, x.get(), y.get(), c.get()),
        Statement::Case(_, _, subject, arms) => {
            case(alloc, scope, by, arms.as_slice(), subject.get())
        }
        Statement::Assign(target, value) => assignment(alloc, scope, by, target, value.get()),
        Statement::Empty(_) => Ok(Stmt::Skip),
    }
}

// Statements one after another.
#[tactic(auto, using(width_rules::proofs::Firsts::earlier, width_rules::proofs::Firsts::later, width_rules::proofs::Firsts::neither, crate::proofs::Building::block_made, crate::proofs::Listing::statement_ahead, crate::proofs::Listing::statement_fault))]
#[cycle(statement)]
fn block(alloc: Global, scope: &Scope, by: Writer, list: &[Statement]) -> Result<Stmt, Refusal>
    ensures faultless { IfOk result (λ _. expression_faults (scope_of scope.now) (statements_of (map statement_of list.now)) ≡ []) }
    ensures form { IfOk result (λ x. stmt_of x ≡ sized_statement (scope_of scope.now) by (statements_of (map statement_of list.now))) }
    ensures fault { IfErr result (IsFirst (expression_faults (scope_of scope.now) (statements_of (map statement_of list.now)))) }
{
    let mut all = Vec::new(alloc);
    for st in list {
        all.push(sized(alloc, scope, by, st)?)?;
    }
    Ok(Stmt::Sequence(all))
}

// `if (c) x`
#[tactic(auto, using(width_rules::proofs::Firsts::earlier, width_rules::proofs::Firsts::later, width_rules::proofs::Firsts::neither, crate::proofs::Building::if_made))]
#[cycle(statement)]
fn only_if(
    alloc: Global,
    scope: &Scope,
    by: Writer,
    c: &Expr,
    x: &Statement,
) -> Result<Stmt, Refusal>
    ensures faultless { IfOk result (λ _. faults (scope_of scope.now) AnyValue (expression_of c.now) ++ expression_faults (scope_of scope.now) (statement_of x.now) ≡ []) }
    ensures form { IfOk result (λ r. stmt_of r ≡ s.If (own (scope_of scope.now) (expression_of c.now)) (sized_statement (scope_of scope.now) by (statement_of x.now)) s.Skip) }
    ensures fault { IfErr result (IsFirst (faults (scope_of scope.now) AnyValue (expression_of c.now) ++ expression_faults (scope_of scope.now) (statement_of x.now))) }
{
    let condition = own(alloc, scope, Due::AnyValue, c)?;
    let consequent = Box::new(alloc, sized(alloc, scope, by, x)?)?;
    let alternative = Box::new(alloc, Stmt::Skip)?;
    Ok(Stmt::If {
        condition: condition.typed.into_inner(),
        consequent,
        alternative,
    })
}

// `if (c) x else y`
#[tactic(auto, using(width_rules::proofs::Firsts::earlier, width_rules::proofs::Firsts::later, width_rules::proofs::Firsts::neither, crate::proofs::Building::if_made))]
#[cycle(statement)]
fn if_else(
    alloc: Global,
    scope: &Scope,
    by: Writer,
    x: &Statement,
    y: &Statement,
    c: &Expr,
) -> Result<Stmt, Refusal>
    ensures faultless { IfOk result (λ _. faults (scope_of scope.now) AnyValue (expression_of c.now) ++ (expression_faults (scope_of scope.now) (statement_of x.now) ++ expression_faults (scope_of scope.now) (statement_of y.now)) ≡ []) }
    ensures form { IfOk result (λ r. stmt_of r ≡ s.If (own (scope_of scope.now) (expression_of c.now)) (sized_statement (scope_of scope.now) by (statement_of x.now)) (sized_statement (scope_of scope.now) by (statement_of y.now))) }
    ensures fault { IfErr result (IsFirst (faults (scope_of scope.now) AnyValue (expression_of c.now) ++ (expression_faults (scope_of scope.now) (statement_of x.now) ++ expression_faults (scope_of scope.now) (statement_of y.now)))) }
{
    let condition = own(alloc, scope, Due::AnyValue, c)?;
    let consequent = Box::new(alloc, sized(alloc, scope, by, x)?)?;
    let alternative = Box::new(alloc, sized(alloc, scope, by, y)?)?;
    Ok(Stmt::If {
        condition: condition.typed.into_inner(),
        consequent,
        alternative,
    })
}

// An assignment: nonblocking in a clocked block, else blocking.
#[tactic(auto, using(width_rules::proofs::Firsts::earlier, width_rules::proofs::Firsts::later, width_rules::proofs::Firsts::neither, crate::proofs::Building::assign_made, crate::proofs::Building::later_made))]
fn assignment(
    alloc: Global,
    scope: &Scope,
    by: Writer,
    target: &Lhs,
    value: &Expr,
) -> Result<Stmt, Refusal>
    ensures faultless { IfOk result (λ _. target_faults (scope_of scope.now) AnyValue (target_of target.now) ++ faults (scope_of scope.now) AnyValue (expression_of value.now) ≡ []) }
    ensures form { IfOk result (λ r. stmt_of r ≡ sized_statement (scope_of scope.now) by (w.Assignment (target_of target.now) (expression_of value.now))) }
    ensures fault { IfErr result (IsFirst (target_faults (scope_of scope.now) AnyValue (target_of target.now) ++ faults (scope_of scope.now) AnyValue (expression_of value.now))) }
{
    let SizedTarget { parts, width } = size_target(alloc, scope, Due::AnyValue, target)?;
    let value = assigned(alloc, scope, width, value)?;
    match by {
        Writer::Clocked => Ok(Stmt::Later {
            targets: parts,
            value,
        }),
        Writer::Nothing | Writer::Continuous | Writer::Combinational => Ok(Stmt::Assign {
            targets: parts,
            value,
        }),
    }
}

// A case.
#[tactic(auto, using(width_rules::proofs::Firsts::earlier, width_rules::proofs::Firsts::later, width_rules::proofs::Firsts::neither, crate::proofs::Gathering::case_closes))]
#[cycle(statement)]
fn case(
    alloc: Global,
    scope: &Scope,
    by: Writer,
    arms: &[Arm],
    subject: &Expr,
) -> Result<Stmt, Refusal>
    ensures faultless { IfOk result (λ _. faults (scope_of scope.now) AnyValue (expression_of subject.now) ++ expression_faults (scope_of scope.now) (statements_of (map arm_of arms.now)) ≡ []) }
    ensures form { IfOk result (λ r. stmt_of r ≡ sized_case (scope_of scope.now) by (expression_of subject.now) (statements_of (map arm_of arms.now))) }
    ensures fault { IfErr result (IsFirst (faults (scope_of scope.now) AnyValue (expression_of subject.now) ++ expression_faults (scope_of scope.now) (statements_of (map arm_of arms.now)))) }
{
    let subject = measure(alloc, scope, Due::AnyValue, subject)?;
    let items = all_items(alloc, scope, by, arms)?;
    Ok(close_case(alloc, subject, items)?)
}

// The items of a case, from the first on.
#[tactic(auto, using(width_rules::proofs::Firsts::earlier, width_rules::proofs::Firsts::later, width_rules::proofs::Firsts::neither, crate::proofs::Listing::arm_ahead, crate::proofs::Listing::arm_fault, crate::proofs::Gathering::arm_kept, crate::proofs::Gathering::arm_longest, crate::proofs::Gathering::arm_signs, crate::proofs::Gathering::arm_default))]
#[cycle(statement)]
fn all_items(alloc: Global, scope: &Scope, by: Writer, arms: &[Arm]) -> Result<OpenCase, Refusal>
    ensures faultless { IfOk result (λ _. expression_faults (scope_of scope.now) (statements_of (map arm_of arms.now)) ≡ []) }
    ensures arms { IfOk result (λ x. map arm_form x.arms.items ≡ open_items (scope_of scope.now) by (statements_of (map arm_of arms.now))) }
    ensures length { IfOk result (λ x. x.length ≡ items_length (scope_of scope.now) (statements_of (map arm_of arms.now))) }
    ensures signed { IfOk result (λ x. x.signed ≡ items_signed (scope_of scope.now) (statements_of (map arm_of arms.now))) }
    ensures otherwise { IfOk result (λ x. otherwise_or (default_form x.otherwise) s.Skip ≡ sized_default (scope_of scope.now) by (statements_of (map arm_of arms.now))) }
    ensures fault { IfErr result (IsFirst (expression_faults (scope_of scope.now) (statements_of (map arm_of arms.now)))) }
{
    let mut items = OpenCase {
        arms: Vec::new(alloc),
        length: 0,
        signed: true,
        otherwise: None,
    };
    for arm in arms {
        items = with_arm(alloc, scope, by, arm, items)?;
    }
    Ok(items)
}

// And one more item.
#[cycle(statement)]
fn with_arm(
    alloc: Global,
    scope: &Scope,
    by: Writer,
    arm: &Arm,
    items: OpenCase,
) -> Result<OpenCase, Refusal>
    ensures faultless { IfOk result (λ _. expression_faults (scope_of scope.now) (arm_of arm.now) ≡ []) }
    ensures arms { IfOk result (λ x. map arm_form x.arms.items ≡ map arm_form items.arms.items ++ open_item (scope_of scope.now) by (arm_of arm.now)) }
    ensures length { IfOk result (λ x. x.length ≡ max items.length (items_length (scope_of scope.now) (arm_of arm.now))) }
    ensures signed { IfOk result (λ x. x.signed ≡ (items.signed && items_signed (scope_of scope.now) (arm_of arm.now))) }
    ensures otherwise { IfOk result (λ x. default_form x.otherwise ≡ with_default (default_form items.otherwise) (arm_of arm.now) (sized_statement (scope_of scope.now) by (arm_of arm.now))) }
    ensures fault { IfErr result (IsFirst (expression_faults (scope_of scope.now) (arm_of arm.now))) }
{
    let OpenCase {
        mut arms,
        length,
        signed,
        otherwise,
    } = items;
    match arm {
        Arm::Default(_, body) => {
            let body = Box::new(alloc, sized(alloc, scope, by, body.get())?)?;
            let otherwise = Some(first_of(otherwise, body));
            Ok(OpenCase {
                arms,
                length,
                signed,
                otherwise,
            })
        }
        Arm::Match(labels, body) => {
            let found = measure_labels(alloc, scope, labels.as_slice())?;
            let body = sized(alloc, scope, by, body.get())?;
            let OpenLabels {
                labels,
                length: longest,
                signed: all_signed,
            } = found;
            arms.push(OpenArm { labels, body })?;
            Ok(OpenCase {
                arms,
                length: length.max(longest),
                signed: signed && all_signed,
                otherwise,
            })
        }
    }
}

// The first default of a case, of which there may be one before.
fn first_of(before: Option<Box<Stmt>>, body: Box<Stmt>) -> Box<Stmt>
    ensures { Some (stmt_of result.value) ≡ earlier_or (default_form before) (stmt_of body.value) }
{
    match before {
        Some(before) => before,
        None => body,
    }
}
