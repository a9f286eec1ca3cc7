// The walk over a statement for the names that are asked for, in the order of the sized statement. Each part is walked once; what a default
// of a case mentions stands in a list of its own until the case ends.
ghost use Rattle.std.specs.Prelude.{◌≡◌, ◌+◌, ◌++◌, [], IfOk, Some, length, map};
ghost use Rattle.verilog_ast.specs.Statements as s;
ghost use Rattle.verilog_ast.specs.Views.{expression_of, target_of, label_of, statement_of, arm_of, statements_of};
ghost use Rattle.width_rules.specs.Entries.{scope_of};
ghost use Rattle.width_rules.specs.Adding.{Tells, otherwise_of, earlier_or, with_default, otherwise_or};
ghost use Rattle.width_rules.specs.Mentions.{listing_of, numbered, count, mentions, arm_mentions, default_mentions, match_or, labels_names};

use crate::arm_end::ArmEnd;
use crate::asked::Asked;
use crate::asking::{list_assignment, list_expression, list_labels};
use crate::scope::Scope;
use ls_text::NoMemory;
use std::alloc::Global;
use typed_ir::Mention;
use verilog_ast::{Arm, Expr, Label, Lhs, Stmt};

/// Adds the names that a statement lists, with their numbers from this one on, and answers the next number.
#[tactic(auto, using(crate::proofs::Told::tells_none))]
#[cycle(walk)]
pub fn walk(
    alloc: Global,
    asked: Asked,
    scope: &Scope,
    st: &Stmt,
    from: u32,
    list: &mut Vec<Mention>,
) -> Result<u32, NoMemory>
    ensures { IfOk result (λ next. Tells list.old.items list.new.items from next
        (mentions (listing_of (scope_of scope.now) asked) from (statement_of st.now)) (count (listing_of (scope_of scope.now) asked) (statement_of st.now))) }
{
    match st {
        Stmt::Block(_, _, inner) => walk_all(alloc, asked, scope, inner.as_slice(), from, list),
        Stmt::If(_, c, x) => walk_if(alloc, asked, scope, c.get(), x.get(), from, list),
        Stmt::IfElse(_, c, x, y) => {
            walk_if_else(alloc, asked, scope, c.get(), x.get(), y.get(), from, list)
        }
        Stmt::Case(_, _, subject, arms) => {
            walk_case(
                alloc,
                asked,
                scope,
                arms.as_slice(),
                subject.get(),
                from,
                list,
            )
        }
        Stmt::Assign(target, value) => {
            walk_assign(asked, scope, target, value.get(), from, list)
        }
        Stmt::Empty(_) => Ok(from),
    }
}

// Those of an assignment.
#[tactic(auto, using(crate::proofs::Told::names_told))]
fn walk_assign(
    asked: Asked,
    scope: &Scope,
    target: &Lhs,
    value: &Expr,
    from: u32,
    list: &mut Vec<Mention>,
) -> Result<u32, NoMemory>
    ensures { IfOk result (λ next. Tells list.old.items list.new.items from next
        (numbered from ((listing_of (scope_of scope.now) asked).assignment (target_of target.now) (expression_of value.now)))
        (length ((listing_of (scope_of scope.now) asked).assignment (target_of target.now) (expression_of value.now)))) }
{
    let end = list_assignment(asked, scope, target, value, from, list)?;
    Ok(end)
}

// Those of statements one after another.
#[tactic(auto, using(crate::proofs::Told::all_left, crate::proofs::Told::statements_told))]
#[cycle(walk)]
fn walk_all(
    alloc: Global,
    asked: Asked,
    scope: &Scope,
    statements: &[Stmt],
    from: u32,
    list: &mut Vec<Mention>,
) -> Result<u32, NoMemory>
    ensures { IfOk result (λ next. Tells list.old.items list.new.items from next
        (mentions (listing_of (scope_of scope.now) asked) from (statements_of (map statement_of statements.now)))
        (count (listing_of (scope_of scope.now) asked) (statements_of (map statement_of statements.now)))) }
{
    let mut next = from;
    for st in statements {
        next = walk(alloc, asked, scope, st, next, list)?;
    }
    Ok(next)
}

// Those of a condition and of what is done where it holds.
#[cycle(walk)]
fn walk_if(
    alloc: Global,
    asked: Asked,
    scope: &Scope,
    c: &Expr,
    x: &Stmt,
    from: u32,
    list: &mut Vec<Mention>,
) -> Result<u32, NoMemory>
    ensures { IfOk result (λ next. Tells list.old.items list.new.items from next
        (numbered from ((listing_of (scope_of scope.now) asked).expression (expression_of c.now)) ++ mentions (listing_of (scope_of scope.now) asked) (from + length ((listing_of (scope_of scope.now) asked).expression (expression_of c.now))) (statement_of x.now))
        (length ((listing_of (scope_of scope.now) asked).expression (expression_of c.now)) + count (listing_of (scope_of scope.now) asked) (statement_of x.now))) }
{
    let next = list_expression(asked, scope, c, from, list)?;
    let end = walk(alloc, asked, scope, x, next, list)?;
    Ok(end)
}

// Those of a condition and of what is done in both cases.
#[cycle(walk)]
fn walk_if_else(
    alloc: Global,
    asked: Asked,
    scope: &Scope,
    c: &Expr,
    x: &Stmt,
    y: &Stmt,
    from: u32,
    list: &mut Vec<Mention>,
) -> Result<u32, NoMemory>
    ensures { IfOk result (λ next. Tells list.old.items list.new.items from next
        (numbered from ((listing_of (scope_of scope.now) asked).expression (expression_of c.now))
        ++ (mentions (listing_of (scope_of scope.now) asked) (from + length ((listing_of (scope_of scope.now) asked).expression (expression_of c.now))) (statement_of x.now)
        ++ mentions (listing_of (scope_of scope.now) asked) (from + length ((listing_of (scope_of scope.now) asked).expression (expression_of c.now)) + count (listing_of (scope_of scope.now) asked) (statement_of x.now)) (statement_of y.now)))
        (length ((listing_of (scope_of scope.now) asked).expression (expression_of c.now)) + (count (listing_of (scope_of scope.now) asked) (statement_of x.now) + count (listing_of (scope_of scope.now) asked) (statement_of y.now)))) }
{
    let next = list_expression(asked, scope, c, from, list)?;
    let after = walk(alloc, asked, scope, x, next, list)?;
    let end = walk(alloc, asked, scope, y, after, list)?;
    Ok(end)
}

// Those of a case: its expression, the items that have labels, and its first default.
#[cycle(walk)]
fn walk_case(
    alloc: Global,
    asked: Asked,
    scope: &Scope,
    arms: &[Arm],
    subject: &Expr,
    from: u32,
    list: &mut Vec<Mention>,
) -> Result<u32, NoMemory>
    ensures { IfOk result (λ next. Tells list.old.items list.new.items from next
        (numbered from ((listing_of (scope_of scope.now) asked).expression (expression_of subject.now))
        ++ (arm_mentions (listing_of (scope_of scope.now) asked) (from + length ((listing_of (scope_of scope.now) asked).expression (expression_of subject.now))) (statements_of (map arm_of arms.now))
        ++ default_mentions (listing_of (scope_of scope.now) asked) (from + length ((listing_of (scope_of scope.now) asked).expression (expression_of subject.now))) (statements_of (map arm_of arms.now))))
        (length ((listing_of (scope_of scope.now) asked).expression (expression_of subject.now)) + count (listing_of (scope_of scope.now) asked) (statements_of (map arm_of arms.now)))) }
{
    let next = list_expression(asked, scope, subject, from, list)?;
    let end = walk_arms(alloc, asked, scope, arms, next, list)?;
    Ok(end)
}

// Those of the items of a case, its first default at last.
#[tactic(auto, using(crate::proofs::Told::arms_told))]
#[cycle(walk)]
fn walk_arms(
    alloc: Global,
    asked: Asked,
    scope: &Scope,
    arms: &[Arm],
    from: u32,
    list: &mut Vec<Mention>,
) -> Result<u32, NoMemory>
    ensures { IfOk result (λ next. Tells list.old.items list.new.items from next
        (arm_mentions (listing_of (scope_of scope.now) asked) from (statements_of (map arm_of arms.now)) ++ default_mentions (listing_of (scope_of scope.now) asked) from (statements_of (map arm_of arms.now)))
        (count (listing_of (scope_of scope.now) asked) (statements_of (map arm_of arms.now)))) }
{
    let mut end = ArmEnd {
        next: from,
        otherwise: None,
    };
    for arm in arms {
        end = with_arm(alloc, asked, scope, arm, end, list)?;
    }
    let ArmEnd { next, otherwise } = end;
    add_default(otherwise, list)?;
    Ok(next)
}

// Adds what the default of a case mentions, where there is one.
fn add_default(otherwise: Option<Vec<Mention>>, list: &mut Vec<Mention>) -> Result<(), NoMemory>
    ensures { IfOk result (λ _. list.new.items ≡ list.old.items ++ otherwise_or (otherwise_of otherwise) []) }
{
    match otherwise {
        Some(own) => Ok(list.extend_from_slice(&own)?),
        None => Ok(()),
    }
}

// And one more item.
#[tactic(auto, using(crate::proofs::Told::counted_only))]
#[cycle(walk)]
fn with_arm(
    alloc: Global,
    asked: Asked,
    scope: &Scope,
    arm: &Arm,
    end: ArmEnd,
    list: &mut Vec<Mention>,
) -> Result<ArmEnd, NoMemory>
    ensures told { IfOk result (λ after. Tells list.old.items list.new.items end.next after.next
        (match_or (arm_of arm.now) (mentions (listing_of (scope_of scope.now) asked) end.next (arm_of arm.now)) [])
        (count (listing_of (scope_of scope.now) asked) (arm_of arm.now))) }
    ensures otherwise { IfOk result (λ after. otherwise_of after.otherwise
        ≡ with_default (otherwise_of end.otherwise) (arm_of arm.now) (mentions (listing_of (scope_of scope.now) asked) end.next (arm_of arm.now))) }
{
    let ArmEnd { next, otherwise } = end;
    match arm {
        Arm::Default(_, body) => {
            let mut own = Vec::new(alloc);
            let next = walk(alloc, asked, scope, body.get(), next, &mut own)?;
            let otherwise = Some(first_of(otherwise, own));
            Ok(ArmEnd { next, otherwise })
        }
        Arm::Match(labels, body) => {
            let next = walk_match(
                alloc,
                asked,
                scope,
                labels.as_slice(),
                body.get(),
                next,
                list,
            )?;
            Ok(ArmEnd { next, otherwise })
        }
    }
}

// Those of labels and of what is done where one of them matches.
#[cycle(walk)]
fn walk_match(
    alloc: Global,
    asked: Asked,
    scope: &Scope,
    labels: &[Label],
    body: &Stmt,
    from: u32,
    list: &mut Vec<Mention>,
) -> Result<u32, NoMemory>
    ensures { IfOk result (λ next. Tells list.old.items list.new.items from next
        (mentions (listing_of (scope_of scope.now) asked) from (s.Match (map label_of labels.now) (statement_of body.now)))
        (count (listing_of (scope_of scope.now) asked) (s.Match (map label_of labels.now) (statement_of body.now)))) }
{
    let next = list_labels(asked, scope, labels, from, list)?;
    let end = walk(alloc, asked, scope, body, next, list)?;
    Ok(end)
}

// What the first default of a case mentions, of which there may be one before.
fn first_of(before: Option<Vec<Mention>>, own: Vec<Mention>) -> Vec<Mention>
    ensures { Some result.items ≡ earlier_or (otherwise_of before) own.items }
{
    match before {
        Some(before) => before,
        None => own,
    }
}
