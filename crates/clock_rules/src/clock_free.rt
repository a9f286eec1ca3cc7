// Mentions of the clock in expressions, targets and statements.
ghost use Rattle.std.specs.Prelude.{◌≡◌, map};
ghost use Rattle.std.specs.Option.{option_map};
ghost use Rattle.verilog_ast.specs.Views.{expression_of, reference_of, parts_of, target_of, targets_of, label_of, statement_of, statements_of, arm_of};
ghost use Rattle.width_rules.specs.Entries.{scope_of};
ghost use Rattle.width_rules.specs.Found.{meaning_of};
ghost use Rattle.ls_text.specs.Answers.{Answers};
ghost use Rattle.clock_rules.specs.Clocks as k;

use ls_text::Refusal;
use std::alloc::Global;
use verilog_ast::{Arm, Child, Expr, Identifier, Label, Lhs, Reference, Stmt};
use width_rules::{Entry, Scope, refused_at};

// Whether a name stands for the clock.
fn means_clock(entry: Entry) -> bool
    ensures { result ≡ k.is_clock (meaning_of entry) }
{
    match entry {
        Entry::Signal(signal) => signal.signal.number() == 1,
        Entry::Constant(_) | Entry::Turn(_) | Entry::Genvar | Entry::Unknown => false,
    }
}

/// Whether a name in reach is the clock.
pub fn is_clock(scope: &Scope, name: Identifier) -> bool
    ensures { result ≡ k.is_clock (scope_of scope.now name.name.0) }
{
    let entry = scope.find(name.name);
    means_clock(entry)
}

fn name_free(alloc: Global, scope: &Scope, name: Identifier) -> Result<(), Refusal>
    ensures { Answers result (λ x. x) (k.name_free (scope_of scope.now) name) }
{
    if is_clock(scope, name) {
        Err(refused_at(alloc, 37, name))
    } else {
        Ok(())
    }
}

/// An expression that doesn't mention the clock; 37 ClockMisuse at the first mention.
#[cycle(expression)]
pub fn clock_free(alloc: Global, scope: &Scope, e: &Expr) -> Result<(), Refusal>
    ensures { Answers result (λ x. x) (k.clock_free (scope_of scope.now) (expression_of e.now)) }
{
    match e {
        Expr::Number(_, _) => Ok(()),
        Expr::Read(reference) => reference_free(alloc, scope, reference),
        Expr::Unary(_, _, x) | Expr::Bracketed(_, x) => clock_free(alloc, scope, x.get()),
        Expr::Binary(_, x, y) => {
            clock_free(alloc, scope, x.get())?;
            clock_free(alloc, scope, y.get())
        }
        Expr::Conditional(c, x, y) => {
            clock_free(alloc, scope, c.get())?;
            clock_free(alloc, scope, x.get())?;
            clock_free(alloc, scope, y.get())
        }
        Expr::Concatenation(_, parts) => parts_free(alloc, scope, parts.as_slice()),
        Expr::Replication(_, count, parts) => {
            clock_free(alloc, scope, count.get())?;
            parts_free(alloc, scope, parts.as_slice())
        }
    }
}

#[cycle(expression)]
fn parts_free(alloc: Global, scope: &Scope, parts: &[Expr]) -> Result<(), Refusal>
    ensures { Answers result (λ x. x) (k.clock_free (scope_of scope.now) (parts_of (map expression_of parts.now))) }
{
    for part in parts {
        clock_free(alloc, scope, part)?;
    }
    Ok(())
}

/// A name that isn't the clock, with its select.
#[cycle(expression)]
pub fn reference_free(alloc: Global, scope: &Scope, reference: &Reference) -> Result<(), Refusal>
    ensures { Answers result (λ x. x) (k.clock_free (scope_of scope.now) (reference_of reference.now)) }
{
    match reference {
        Reference::Whole(name) => name_free(alloc, scope, *name),
        Reference::Bit(name, x) => {
            name_free(alloc, scope, *name)?;
            clock_free(alloc, scope, x.get())
        }
        Reference::Part(name, x, y)
        | Reference::Upward(name, x, y)
        | Reference::Downward(name, x, y) => {
            name_free(alloc, scope, *name)?;
            clock_free(alloc, scope, x.get())?;
            clock_free(alloc, scope, y.get())
        }
    }
}

/// A target that doesn't mention the clock.
#[cycle(target)]
pub fn target_free(alloc: Global, scope: &Scope, target: &Lhs) -> Result<(), Refusal>
    ensures { Answers result (λ x. x) (k.target_free (scope_of scope.now) (target_of target.now)) }
{
    match target {
        Lhs::Reference(reference) => reference_free(alloc, scope, reference),
        Lhs::Concatenation(_, targets) => targets_free(alloc, scope, targets.as_slice()),
    }
}

#[cycle(target)]
fn targets_free(alloc: Global, scope: &Scope, targets: &[Lhs]) -> Result<(), Refusal>
    ensures { Answers result (λ x. x) (k.target_free (scope_of scope.now) (targets_of (map target_of targets.now))) }
{
    for target in targets {
        target_free(alloc, scope, target)?;
    }
    Ok(())
}

fn label_free(alloc: Global, scope: &Scope, label: &Label) -> Result<(), Refusal>
    ensures { Answers result (λ x. x) (k.label_free (scope_of scope.now) (label_of label.now)) }
{
    match label {
        Label::Pattern(_, _) => Ok(()),
        Label::Expr(x) => clock_free(alloc, scope, x.get()),
    }
}

fn labels_free(alloc: Global, scope: &Scope, labels: &[Label]) -> Result<(), Refusal>
    ensures { Answers result (λ x. x) (k.all_free (k.label_free (scope_of scope.now)) (map label_of labels.now)) }
{
    for label in labels {
        label_free(alloc, scope, label)?;
    }
    Ok(())
}

/// A statement that doesn't mention the clock.
#[cycle(statement)]
pub fn statement_free(alloc: Global, scope: &Scope, statement: &Stmt) -> Result<(), Refusal>
    ensures { Answers result (λ x. x) (k.statement_free (scope_of scope.now) (statement_of statement.now)) }
{
    match statement {
        Stmt::Block(_, _, all) => statements_free(alloc, scope, all.as_slice()),
        Stmt::If(_, c, x) => {
            clock_free(alloc, scope, c.get())?;
            statement_free(alloc, scope, x.get())
        }
        Stmt::IfElse(_, c, x, y) => {
            clock_free(alloc, scope, c.get())?;
            statement_free(alloc, scope, x.get())?;
            statement_free(alloc, scope, y.get())
        }
        Stmt::Case(_, _, x, arms) => {
            clock_free(alloc, scope, x.get())?;
            arms_free(alloc, scope, arms.as_slice())
        }
        Stmt::Assign(target, x) => {
            target_free(alloc, scope, target)?;
            clock_free(alloc, scope, x.get())
        }
        Stmt::Empty(_) => Ok(()),
    }
}

#[cycle(statement)]
fn statements_free(alloc: Global, scope: &Scope, all: &[Stmt]) -> Result<(), Refusal>
    ensures { Answers result (λ x. x) (k.statement_free (scope_of scope.now) (statements_of (map statement_of all.now))) }
{
    for one in all {
        statement_free(alloc, scope, one)?;
    }
    Ok(())
}

#[cycle(statement)]
fn arms_free(alloc: Global, scope: &Scope, arms: &[Arm]) -> Result<(), Refusal>
    ensures { Answers result (λ x. x) (k.statement_free (scope_of scope.now) (statements_of (map arm_of arms.now))) }
{
    for arm in arms {
        arm_free(alloc, scope, arm)?;
    }
    Ok(())
}

#[cycle(statement)]
fn arm_free(alloc: Global, scope: &Scope, arm: &Arm) -> Result<(), Refusal>
    ensures { Answers result (λ x. x) (k.statement_free (scope_of scope.now) (arm_of arm.now)) }
{
    match arm {
        Arm::Default(_, x) => statement_free(alloc, scope, x.get()),
        Arm::Match(labels, x) => {
            labels_free(alloc, scope, labels.as_slice())?;
            statement_free(alloc, scope, x.get())
        }
    }
}

/// A value, where there is one, that doesn't mention the clock.
pub fn value_free(alloc: Global, scope: &Scope, value: &Option<Child<Expr>>) -> Result<(), Refusal>
    ensures { Answers result (λ x. x) (k.value_free (scope_of scope.now) (option_map expression_of value.now)) }
{
    match value {
        None => Ok(()),
        Some(e) => clock_free(alloc, scope, e.get()),
    }
}
