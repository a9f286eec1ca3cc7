// Items without a generate construct.
#![tactic(auto, using(verilog_expr::proofs::Runs::runs, verilog_expr::proofs::Runs::loops, verilog_expr::proofs::Entries::plain_entries, crate::proofs::ItemTrees::item_trees))]

ghost use Rattle.std.specs.Prelude.{◌≡◌, ◌≤◌, ◌<◌, ◌+◌, ◌^◌, [], ◌∷◌, length, OnOk, IfOk};
ghost use Rattle.verilog_lex.specs.declared.kind.Kind.TheVariants.{Always, Assign, AtSign, Genvar, LocalParam, Reg, Semicolon, Wire, Word};
ghost use Rattle.verilog_expr.specs.Grammar as grammar;
ghost use Rattle.verilog_expr.specs.Grammar.{N, T};
ghost use Rattle.verilog_expr.specs.Reads.{Reads};
ghost use Rattle.verilog_parse.specs.Items as spells;
ghost use Rattle.verilog_parse.specs.Items.{Spells};

use ls_text::Place;
use verilog_ast::{Child, Children, Continuous, PlainItem, Sign};
use verilog_decl::{instances, names, overrides, parameters, reg_variables, shape, variables};
use verilog_expr::{ParseError, Parser, identifier};
use verilog_lex::Kind;
use verilog_stmt::{statement, target};

/// An item without a generate construct.
pub fn plain_item(p: &mut Parser<'_>, weight: u32) -> Result<PlainItem, ParseError>
    requires { weight < 2 ^ 30 }
    ensures machine { Reads (N grammar.APlainItem weight ∷ []) p.old result p.new }
    ensures tree { IfOk result (λ x. Spells (spells.APlainItem x) p.old p.new) }
    ensures shorter { OnOk result (length p.new < length p.old) }
{
    match p.peek() {
        Kind::Wire => {
            let item = wire_item(p, weight)?;
            Ok(item)
        }
        Kind::Reg => {
            let item = reg_item(p, weight)?;
            Ok(item)
        }
        Kind::LocalParam => {
            let item = local_parameter_item(p, weight)?;
            Ok(item)
        }
        Kind::Genvar => {
            let item = genvar_item(p, weight)?;
            Ok(item)
        }
        Kind::Assign => {
            let item = assign_item(p, weight)?;
            Ok(item)
        }
        Kind::Always => {
            let item = always_item(p, weight)?;
            Ok(item)
        }
        Kind::Word => {
            let item = instances_item(p, weight)?;
            Ok(item)
        }
        _ => Err(p.stuck()),
    }
}

// `wire` and what it declares.
fn wire_item(p: &mut Parser<'_>, weight: u32) -> Result<PlainItem, ParseError>
    requires { weight < 2 ^ 30 }
    ensures machine { Reads (T Wire weight ∷ N grammar.AShape weight ∷ N grammar.Variables weight ∷ T Semicolon weight ∷ []) p.old result p.new }
    ensures tree { IfOk result (λ x. Spells (spells.APlainItem x) p.old p.new) }
    ensures shorter { OnOk result (length p.new < length p.old) }
{
    let at = p.expect(Kind::Wire, weight)?.at;
    let shape = shape(p, weight)?;
    let all = variables(p, weight)?;
    p.expect(Kind::Semicolon, weight)?;
    Ok(PlainItem::Wire(at, shape, all))
}

// `reg` and what it declares.
fn reg_item(p: &mut Parser<'_>, weight: u32) -> Result<PlainItem, ParseError>
    requires { weight < 2 ^ 30 }
    ensures machine { Reads (T Reg weight ∷ N grammar.AShape weight ∷ N grammar.Variables weight ∷ T Semicolon weight ∷ []) p.old result p.new }
    ensures tree { IfOk result (λ x. Spells (spells.APlainItem x) p.old p.new) }
    ensures shorter { OnOk result (length p.new < length p.old) }
{
    let at = p.expect(Kind::Reg, weight)?.at;
    let shape = shape(p, weight)?;
    let all = reg_variables(p, weight)?;
    p.expect(Kind::Semicolon, weight)?;
    Ok(PlainItem::Reg(at, shape, all))
}

// `localparam` and what it declares.
fn local_parameter_item(p: &mut Parser<'_>, weight: u32) -> Result<PlainItem, ParseError>
    requires { weight < 2 ^ 30 }
    ensures machine { Reads (T LocalParam weight ∷ N grammar.AShape weight ∷ N grammar.Parameters weight ∷ T Semicolon weight ∷ []) p.old result p.new }
    ensures tree { IfOk result (λ x. Spells (spells.APlainItem x) p.old p.new) }
    ensures shorter { OnOk result (length p.new < length p.old) }
{
    let at = p.expect(Kind::LocalParam, weight)?.at;
    let shape = shape(p, weight)?;
    let all = parameters(p, weight)?;
    p.expect(Kind::Semicolon, weight)?;
    Ok(PlainItem::LocalParameter(at, shape, all))
}

// `genvar` and its names.
fn genvar_item(p: &mut Parser<'_>, weight: u32) -> Result<PlainItem, ParseError>
    requires { weight < 2 ^ 30 }
    ensures machine { Reads (T Genvar weight ∷ N grammar.Names weight ∷ T Semicolon weight ∷ []) p.old result p.new }
    ensures tree { IfOk result (λ x. Spells (spells.APlainItem x) p.old p.new) }
    ensures shorter { OnOk result (length p.new < length p.old) }
{
    let at = p.expect(Kind::Genvar, weight)?.at;
    let all = names(p, weight)?;
    p.expect(Kind::Semicolon, weight)?;
    Ok(PlainItem::Genvar(at, all))
}

// `assign` and its assignments.
fn assign_item(p: &mut Parser<'_>, weight: u32) -> Result<PlainItem, ParseError>
    requires { weight < 2 ^ 30 }
    ensures machine { Reads (T Assign weight ∷ N grammar.Assignments weight ∷ T Semicolon weight ∷ []) p.old result p.new }
    ensures tree { IfOk result (λ x. Spells (spells.APlainItem x) p.old p.new) }
    ensures shorter { OnOk result (length p.new < length p.old) }
{
    let at = p.expect(Kind::Assign, weight)?.at;
    let all = assignments(p, weight)?;
    p.expect(Kind::Semicolon, weight)?;
    Ok(PlainItem::Assign(at, all))
}

// `always` and its event.
fn always_item(p: &mut Parser<'_>, weight: u32) -> Result<PlainItem, ParseError>
    requires { weight < 2 ^ 30 }
    ensures machine { Reads (T Always weight ∷ T AtSign weight ∷ N grammar.AnEvent weight ∷ []) p.old result p.new }
    ensures tree { IfOk result (λ x. Spells (spells.APlainItem x) p.old p.new) }
    ensures shorter { OnOk result (length p.new < length p.old) }
{
    let at = p.expect(Kind::Always, weight)?.at;
    p.expect(Kind::AtSign, weight)?;
    event(p, at, weight)
}

// The name of a module and its instances.
fn instances_item(p: &mut Parser<'_>, weight: u32) -> Result<PlainItem, ParseError>
    requires { weight < 2 ^ 30 }
    ensures machine { Reads (T Word weight ∷ N grammar.Overrides weight ∷ N grammar.Instances weight ∷ T Semicolon weight ∷ []) p.old result p.new }
    ensures tree { IfOk result (λ x. Spells (spells.APlainItem x) p.old p.new) }
    ensures shorter { OnOk result (length p.new < length p.old) }
{
    let module = identifier(p.expect(Kind::Word, weight)?);
    let overrides = overrides(p, weight)?;
    let all = instances(p, weight)?;
    p.expect(Kind::Semicolon, weight)?;
    Ok(PlainItem::Instances(module, overrides, all))
}

// What follows `always @`.
fn event(p: &mut Parser<'_>, at: Place, weight: u32) -> Result<PlainItem, ParseError>
    requires { weight < 2 ^ 30 }
    ensures machine { Reads (N grammar.AnEvent weight ∷ []) p.old result p.new }
    ensures tree { IfOk result (λ x. Spells (spells.AnEvent at x) p.old p.new) }
    ensures shorter { OnOk result (length p.new < length p.old) }
{
    match p.peek() {
        Kind::Star => {
            p.expect(Kind::Star, weight)?;
            let body = Child::new(p.alloc(), statement(p, Sign::Blocking, weight)?)?;
            Ok(PlainItem::Combinational(at, body))
        }
        Kind::LeftParen => {
            p.expect(Kind::LeftParen, weight)?;
            let item = trigger(p, at, weight)?;
            Ok(item)
        }
        _ => Err(p.stuck()),
    }
}

// What follows `always @ (`: all inputs, or the edge of one name.
fn trigger(p: &mut Parser<'_>, at: Place, weight: u32) -> Result<PlainItem, ParseError>
    requires { weight < 2 ^ 30 }
    ensures machine { Reads (N grammar.Trigger weight ∷ []) p.old result p.new }
    ensures tree { IfOk result (λ x. Spells (spells.Trigger at x) p.old p.new) }
    ensures shorter { OnOk result (length p.new < length p.old) }
{
    match p.peek() {
        Kind::Star => {
            p.expect(Kind::Star, weight + 1)?;
            p.expect(Kind::RightParen, weight + 1)?;
            let body = Child::new(p.alloc(), statement(p, Sign::Blocking, weight)?)?;
            Ok(PlainItem::Combinational(at, body))
        }
        Kind::Posedge => {
            p.expect(Kind::Posedge, weight + 1)?;
            let clock = identifier(p.expect(Kind::Word, weight + 1)?);
            edge_end(p, weight + 1)?;
            let body = Child::new(p.alloc(), statement(p, Sign::Nonblocking, weight)?)?;
            Ok(PlainItem::Clocked(at, clock, body))
        }
        Kind::Word => Err(p.outside()),
        _ => Err(p.stuck()),
    }
}

// The bracket after the name of an edge: a further event is outside of this language.
fn edge_end(p: &mut Parser<'_>, weight: u32) -> Result<(), ParseError>
    requires { weight < 2 ^ 30 }
    ensures machine { Reads (N grammar.EdgeEnd weight ∷ []) p.old result p.new }
    ensures tree { OnOk result (Spells spells.EdgeEnd p.old p.new) }
    ensures shorter { OnOk result (length p.new < length p.old) }
{
    if p.sees(Kind::RightParen) {
        p.expect(Kind::RightParen, weight)?;
        return Ok(());
    }
    if p.sees(Kind::Comma) {
        return Err(p.outside());
    }
    Err(p.stuck())
}

// Continuous assignments with commas between.
fn assignments(p: &mut Parser<'_>, weight: u32) -> Result<Children<Continuous>, ParseError>
    requires { weight < 2 ^ 30 }
    ensures machine { Reads (N grammar.Assignments weight ∷ []) p.old result p.new }
    ensures tree { IfOk result (λ xs. Spells (spells.Assignments xs) p.old p.new) }
    ensures shorter { OnOk result (length p.new < length p.old) }
{
    let first = continuous(p, weight)?;
    let all = more_assignments(p, first, weight)?;
    Ok(all)
}

// Further continuous assignments, behind the first.
fn more_assignments(
    p: &mut Parser<'_>,
    first: Continuous,
    weight: u32,
) -> Result<Children<Continuous>, ParseError>
    requires { weight < 2 ^ 30 }
    ensures machine { Reads (N grammar.MoreAssignments weight ∷ []) p.old result p.new }
    ensures tree { IfOk result (λ xs. Spells (spells.AssignmentsBehind first xs) p.old p.new) }
    ensures shorter { OnOk result (length p.new ≤ length p.old) }
{
    let mut all = Children::new(p.alloc());
    all.push(first)?;
    'items: while p.sees(Kind::Comma) {
        p.expect(Kind::Comma, weight)?;
        all.push(continuous(p, weight)?)?;
    }
    Ok(all)
}

fn continuous(p: &mut Parser<'_>, weight: u32) -> Result<Continuous, ParseError>
    requires { weight < 2 ^ 30 }
    ensures machine { Reads (N grammar.AContinuous weight ∷ []) p.old result p.new }
    ensures tree { IfOk result (λ x. Spells (spells.AContinuous x) p.old p.new) }
    ensures shorter { OnOk result (length p.new < length p.old) }
{
    let target = target(p, weight)?;
    p.expect(Kind::Equal, weight)?;
    let value = Child::new(p.alloc(), p.expression(weight)?)?;
    Ok(Continuous { target, value })
}
