// Statements, by recursive descent: one function a nonterminal.
#![tactic(auto, using(verilog_expr::proofs::Runs::runs, verilog_expr::proofs::Runs::loops, verilog_expr::proofs::Entries::entries, verilog_expr::proofs::Entries::statement_entries, crate::proofs::StatementTrees::statement_trees))]

ghost use Rattle.std.specs.Prelude.{◌≡◌, ◌≤◌, ◌<◌, ◌+◌, ◌^◌, [], ◌∷◌, length, OnOk, IfOk, MatchBool, true, false};
ghost use Rattle.verilog_expr.specs.Tokens.{next};
ghost use Rattle.verilog_expr.specs.Grammar as grammar;
ghost use Rattle.verilog_expr.specs.Grammar.{N, begins_statement, begins_arm};
ghost use Rattle.verilog_expr.specs.Reads.{Reads};
ghost use Rattle.verilog_stmt.specs.Statements as spells;
ghost use Rattle.verilog_stmt.specs.Statements.{Spells};

use crate::targets::braces;
use ls_text::Place;
use verilog_ast::{Arm, CaseKind, Child, Children, Expr, Identifier, Label, Lhs, Sign, Stmt};
use verilog_expr::{ParseError, Parser, identifier, pattern};
use verilog_lex::Kind;

fn at_statement(p: &Parser<'_>) -> bool
    ensures { MatchBool result (begins_statement (next p.now) ≡ true) (begins_statement (next p.now) ≡ false) }
{
    matches!(
        p.peek(),
        Kind::Begin
            | Kind::If
            | Kind::Case
            | Kind::Casez
            | Kind::Semicolon
            | Kind::Word
            | Kind::LeftBrace
    )
}

/// A statement whose assignments have this sign.
#[cycle(statement)]
pub fn statement(p: &mut Parser<'_>, sign: Sign, weight: u32) -> Result<Stmt, ParseError>
    requires { weight < 2 ^ 30 }
    ensures machine { Reads (N (grammar.AStatement sign) weight ∷ []) p.old result p.new }
    ensures tree { IfOk result (λ x. Spells (spells.AStatement sign x) p.old p.new) }
    ensures shorter { OnOk result (length p.new < length p.old) }
{
    match p.peek() {
        Kind::Semicolon => Ok(Stmt::Empty(p.expect(Kind::Semicolon, weight)?.at)),
        Kind::Begin => {
            let at = p.expect(Kind::Begin, weight)?.at;
            let label = optional_label(p, weight + 1)?;
            let body = statements(p, sign, weight + 1)?;
            p.expect(Kind::BlockEnd, weight + 1)?;
            Ok(Stmt::Block(at, label, body))
        }
        Kind::If => {
            let at = p.expect(Kind::If, weight)?.at;
            if_statement(p, at, sign, weight + 1)
        }
        Kind::Case => {
            let at = p.expect(Kind::Case, weight)?.at;
            case_statement(p, at, sign, CaseKind::Case, weight + 1)
        }
        Kind::Casez => {
            let at = p.expect(Kind::Casez, weight)?.at;
            case_statement(p, at, sign, CaseKind::Casez, weight + 1)
        }
        Kind::Word => {
            let name = identifier(p.expect(Kind::Word, weight)?);
            let target = p.select(name, weight + 1)?;
            assignment(p, Lhs::Reference(target), sign, weight + 1)
        }
        Kind::LeftBrace => {
            let at = p.expect(Kind::LeftBrace, weight)?.at;
            let targets = braces(p, weight + 2)?;
            assignment(p, Lhs::Concatenation(at, targets), sign, weight + 1)
        }
        _ => Err(p.stuck()),
    }
}

// What follows an `if`.
#[cycle(statement)]
fn if_statement(p: &mut Parser<'_>, at: Place, sign: Sign, weight: u32) -> Result<Stmt, ParseError>
    requires { weight < 2 ^ 30 }
    ensures machine { Reads (N (grammar.AnIf sign) weight ∷ []) p.old result p.new }
    ensures tree { IfOk result (λ x. Spells (spells.AnIf sign at x) p.old p.new) }
    ensures shorter { OnOk result (length p.new < length p.old) }
{
    p.expect(Kind::LeftParen, weight)?;
    let test = Child::new(p.alloc(), p.expression(weight + 1)?)?;
    p.expect(Kind::RightParen, weight + 1)?;
    let yes = Child::new(p.alloc(), statement(p, sign, weight)?)?;
    alternative(p, at, test, yes, sign, weight)
}

// What follows the first branch of an `if`: an `else` belongs to the nearest one.
#[cycle(statement)]
fn alternative(
    p: &mut Parser<'_>,
    at: Place,
    test: Child<Expr>,
    yes: Child<Stmt>,
    sign: Sign,
    weight: u32,
) -> Result<Stmt, ParseError>
    requires { weight < 2 ^ 30 }
    ensures machine { Reads (N (grammar.Alternative sign) weight ∷ []) p.old result p.new }
    ensures tree { IfOk result (λ x. Spells (spells.Alternative sign at test yes x) p.old p.new) }
    ensures shorter { OnOk result (length p.new ≤ length p.old) }
{
    if !p.sees(Kind::Else) {
        return Ok(Stmt::If(at, test, yes));
    }
    p.expect(Kind::Else, weight)?;
    let no = Child::new(p.alloc(), statement(p, sign, weight)?)?;
    Ok(Stmt::IfElse(at, test, yes, no))
}

// What follows a `case` or `casez`.
#[cycle(statement)]
fn case_statement(
    p: &mut Parser<'_>,
    at: Place,
    sign: Sign,
    which: CaseKind,
    weight: u32,
) -> Result<Stmt, ParseError>
    requires { weight < 2 ^ 30 }
    ensures machine { Reads (N (grammar.ACase sign which) weight ∷ []) p.old result p.new }
    ensures tree { IfOk result (λ x. Spells (spells.ACase sign which at x) p.old p.new) }
    ensures shorter { OnOk result (length p.new < length p.old) }
{
    p.expect(Kind::LeftParen, weight)?;
    let subject = Child::new(p.alloc(), p.expression(weight + 1)?)?;
    p.expect(Kind::RightParen, weight + 1)?;
    let first = Child::new(p.alloc(), arm(p, sign, which, weight)?)?;
    let arms = more_arms(p, first, sign, which, weight)?;
    p.expect(Kind::EndCase, weight)?;
    Ok(Stmt::Case(at, which, subject, arms))
}

fn at_arm(p: &Parser<'_>, which: CaseKind) -> bool
    ensures { MatchBool result (begins_arm which (next p.now) ≡ true) (begins_arm which (next p.now) ≡ false) }
{
    match which {
        CaseKind::Case => p.sees_expression() || p.sees(Kind::Default),
        CaseKind::Casez => { p.sees_expression() || p.sees(Kind::Default) || p.sees(Kind::Wild) }
    }
}

// Further items of a `case`, behind the first.
#[cycle(statement)]
fn more_arms(
    p: &mut Parser<'_>,
    first: Child<Arm>,
    sign: Sign,
    which: CaseKind,
    weight: u32,
) -> Result<Children<Arm>, ParseError>
    requires { weight < 2 ^ 30 }
    ensures machine { Reads (N (grammar.MoreArms sign which) weight ∷ []) p.old result p.new }
    ensures tree { IfOk result (λ xs. Spells (spells.ArmsBehind sign which first xs) p.old p.new) }
    ensures shorter { OnOk result (length p.new ≤ length p.old) }
{
    let mut all = Children::new(p.alloc());
    all.push(first.into_inner())?;
    'items: while at_arm(p, which) {
        all.push(arm(p, sign, which, weight)?)?;
    }
    Ok(all)
}

// One item of a `case`.
#[cycle(statement)]
fn arm(p: &mut Parser<'_>, sign: Sign, which: CaseKind, weight: u32) -> Result<Arm, ParseError>
    requires { weight < 2 ^ 30 }
    ensures machine { Reads (N (grammar.AnArm sign which) weight ∷ []) p.old result p.new }
    ensures tree { IfOk result (λ x. Spells (spells.AnArm sign which x) p.old p.new) }
    ensures shorter { OnOk result (length p.new < length p.old) }
{
    if p.sees(Kind::Default) {
        let at = p.expect(Kind::Default, weight)?.at;
        optional_colon(p, weight)?;
        let body = Child::new(p.alloc(), statement(p, sign, weight)?)?;
        return Ok(Arm::Default(at, body));
    }
    let first = label(p, which, weight)?;
    let labels = more_labels(p, first, which, weight)?;
    p.expect(Kind::Colon, weight)?;
    let body = Child::new(p.alloc(), statement(p, sign, weight)?)?;
    Ok(Arm::Match(labels, body))
}

// The colon that may follow `default`.
fn optional_colon(p: &mut Parser<'_>, weight: u32) -> Result<(), ParseError>
    requires { weight < 2 ^ 30 }
    ensures machine { Reads (N grammar.OptionalColon weight ∷ []) p.old result p.new }
    ensures tree { OnOk result (Spells spells.OptionalColon p.old p.new) }
    ensures shorter { OnOk result (length p.new ≤ length p.old) }
{
    if p.sees(Kind::Colon) {
        p.expect(Kind::Colon, weight)?;
    }
    Ok(())
}

// What an item of a `case` is compared with; a literal with don't-cares stands in a `casez` alone.
fn label(p: &mut Parser<'_>, which: CaseKind, weight: u32) -> Result<Label, ParseError>
    requires { weight < 2 ^ 30 }
    ensures machine { Reads (N (grammar.ALabel which) weight ∷ []) p.old result p.new }
    ensures tree { IfOk result (λ x. Spells (spells.ALabel which x) p.old p.new) }
    ensures shorter { OnOk result (length p.new < length p.old) }
{
    match which {
        CaseKind::Case => expression_label(p, weight),
        CaseKind::Casez => casez_label(p, weight),
    }
}

fn expression_label(p: &mut Parser<'_>, weight: u32) -> Result<Label, ParseError>
    requires { weight < 2 ^ 30 }
    ensures machine { Reads (N (grammar.ALabel CaseKind.Case) weight ∷ []) p.old result p.new }
    ensures tree { IfOk result (λ x. Spells (spells.ALabel CaseKind.Case x) p.old p.new) }
    ensures shorter { OnOk result (length p.new < length p.old) }
{
    let value = Child::new(p.alloc(), p.expression(weight)?)?;
    Ok(Label::Expr(value))
}

fn casez_label(p: &mut Parser<'_>, weight: u32) -> Result<Label, ParseError>
    requires { weight < 2 ^ 30 }
    ensures machine { Reads (N (grammar.ALabel CaseKind.Casez) weight ∷ []) p.old result p.new }
    ensures tree { IfOk result (λ x. Spells (spells.ALabel CaseKind.Casez x) p.old p.new) }
    ensures shorter { OnOk result (length p.new < length p.old) }
{
    if p.sees(Kind::Wild) {
        let token = p.expect(Kind::Wild, weight)?;
        return Ok(Label::Pattern(token.at, pattern(token)));
    }
    let value = Child::new(p.alloc(), p.expression(weight)?)?;
    Ok(Label::Expr(value))
}

// Further labels, each after a comma, behind the first.
fn more_labels(
    p: &mut Parser<'_>,
    first: Label,
    which: CaseKind,
    weight: u32,
) -> Result<Children<Label>, ParseError>
    requires { weight < 2 ^ 30 }
    ensures machine { Reads (N (grammar.MoreLabels which) weight ∷ []) p.old result p.new }
    ensures tree { IfOk result (λ xs. Spells (spells.LabelsBehind which first xs) p.old p.new) }
    ensures shorter { OnOk result (length p.new ≤ length p.old) }
{
    let mut all = Children::new(p.alloc());
    all.push(first)?;
    'items: while p.sees(Kind::Comma) {
        p.expect(Kind::Comma, weight)?;
        all.push(label(p, which, weight)?)?;
    }
    Ok(all)
}

// The label that may follow `begin`.
fn optional_label(p: &mut Parser<'_>, weight: u32) -> Result<Option<Identifier>, ParseError>
    requires { weight < 2 ^ 30 }
    ensures machine { Reads (N grammar.OptionalLabel weight ∷ []) p.old result p.new }
    ensures tree { IfOk result (λ x. Spells (spells.OptionalLabel x) p.old p.new) }
    ensures shorter { OnOk result (length p.new ≤ length p.old) }
{
    if !p.sees(Kind::Colon) {
        return Ok(None);
    }
    p.expect(Kind::Colon, weight)?;
    let name = identifier(p.expect(Kind::Word, weight)?);
    Ok(Some(name))
}

// Statements up to what begins none.
#[cycle(statement)]
fn statements(p: &mut Parser<'_>, sign: Sign, weight: u32) -> Result<Children<Stmt>, ParseError>
    requires { weight < 2 ^ 30 }
    ensures machine { Reads (N (grammar.Statements sign) weight ∷ []) p.old result p.new }
    ensures tree { IfOk result (λ xs. Spells (spells.Statements sign xs) p.old p.new) }
    ensures shorter { OnOk result (length p.new ≤ length p.old) }
{
    let mut all = Children::new(p.alloc());
    'items: while at_statement(p) {
        all.push(statement(p, sign, weight)?)?;
    }
    Ok(all)
}

// What follows a target.
fn assignment(p: &mut Parser<'_>, target: Lhs, sign: Sign, weight: u32) -> Result<Stmt, ParseError>
    requires { weight < 2 ^ 30 }
    ensures machine { Reads (N (grammar.AnAssignment sign) weight ∷ []) p.old result p.new }
    ensures tree { IfOk result (λ x. Spells (spells.AnAssignment sign target x) p.old p.new) }
    ensures shorter { OnOk result (length p.new < length p.old) }
{
    assignment_sign(p, sign, weight)?;
    let value = Child::new(p.alloc(), p.expression(weight)?)?;
    p.expect(Kind::Semicolon, weight)?;
    Ok(Stmt::Assign(target, value))
}

// The sign of an assignment.
fn assignment_sign(p: &mut Parser<'_>, sign: Sign, weight: u32) -> Result<(), ParseError>
    ensures machine { Reads (N (grammar.ASign sign) weight ∷ []) p.old result p.new }
    ensures tree { OnOk result (Spells (spells.ASign sign) p.old p.new) }
    ensures shorter { OnOk result (length p.new < length p.old) }
{
    match sign {
        Sign::Blocking => blocking_sign(p, weight),
        Sign::Nonblocking => nonblocking_sign(p, weight),
    }
}

fn blocking_sign(p: &mut Parser<'_>, weight: u32) -> Result<(), ParseError>
    ensures machine { Reads (N (grammar.ASign Sign.Blocking) weight ∷ []) p.old result p.new }
    ensures tree { OnOk result (Spells (spells.ASign Sign.Blocking) p.old p.new) }
    ensures shorter { OnOk result (length p.new < length p.old) }
{
    if p.sees(Kind::Equal) {
        p.expect(Kind::Equal, weight)?;
        return Ok(());
    }
    if p.sees(Kind::LessEqual) {
        return Err(p.outside());
    }
    Err(p.stuck())
}

fn nonblocking_sign(p: &mut Parser<'_>, weight: u32) -> Result<(), ParseError>
    ensures machine { Reads (N (grammar.ASign Sign.Nonblocking) weight ∷ []) p.old result p.new }
    ensures tree { OnOk result (Spells (spells.ASign Sign.Nonblocking) p.old p.new) }
    ensures shorter { OnOk result (length p.new < length p.old) }
{
    if p.sees(Kind::LessEqual) {
        p.expect(Kind::LessEqual, weight)?;
        return Ok(());
    }
    if p.sees(Kind::Equal) {
        return Err(p.outside());
    }
    Err(p.stuck())
}
