// Instances and their connections.
#![tactic(auto, using(verilog_expr::proofs::Runs::runs, verilog_expr::proofs::Runs::loops, verilog_expr::proofs::Entries::plain_entries, crate::proofs::DeclarationTrees::declaration_trees))]

ghost use Rattle.std.specs.Prelude.{◌≡◌, ◌≤◌, ◌<◌, ◌+◌, ◌^◌, [], ◌∷◌, length, OnOk, IfOk};
ghost use Rattle.verilog_expr.specs.Grammar as grammar;
ghost use Rattle.verilog_expr.specs.Grammar.{N};
ghost use Rattle.verilog_expr.specs.Reads.{Reads};
ghost use Rattle.verilog_decl.specs.Declarations as spells;
ghost use Rattle.verilog_decl.specs.Declarations.{Spells};

use verilog_ast::{
    Child, Children, Connections, Expr, Instance, NamedConnection, OrderedConnection,
};
use verilog_expr::{ParseError, Parser, identifier};
use verilog_lex::Kind;

/// The overrides of parameters that may follow a module's name.
pub fn overrides(p: &mut Parser<'_>, weight: u32) -> Result<Option<Connections>, ParseError>
    requires { weight < 2 ^ 30 }
    ensures machine { Reads (N grammar.Overrides weight ∷ []) p.old result p.new }
    ensures tree { IfOk result (λ x. Spells (spells.Overrides x) p.old p.new) }
    ensures shorter { OnOk result (length p.new ≤ length p.old) }
{
    if !p.sees(Kind::Hash) {
        return Ok(None);
    }
    p.expect(Kind::Hash, weight)?;
    p.expect(Kind::LeftParen, weight)?;
    let all = connections(p, weight + 1)?;
    p.expect(Kind::RightParen, weight + 1)?;
    Ok(Some(all))
}

/// Instances with commas between.
pub fn instances(p: &mut Parser<'_>, weight: u32) -> Result<Children<Instance>, ParseError>
    requires { weight < 2 ^ 30 }
    ensures machine { Reads (N grammar.Instances weight ∷ []) p.old result p.new }
    ensures tree { IfOk result (λ xs. Spells (spells.Instances xs) p.old p.new) }
    ensures shorter { OnOk result (length p.new < length p.old) }
{
    let first = instance(p, weight)?;
    let all = more_instances(p, first, weight)?;
    Ok(all)
}

// Further instances, each after a comma, behind the first.
fn more_instances(
    p: &mut Parser<'_>,
    first: Instance,
    weight: u32,
) -> Result<Children<Instance>, ParseError>
    requires { weight < 2 ^ 30 }
    ensures machine { Reads (N grammar.MoreInstances weight ∷ []) p.old result p.new }
    ensures tree { IfOk result (λ xs. Spells (spells.InstancesBehind first xs) p.old p.new) }
    ensures shorter { OnOk result (length p.new ≤ length p.old) }
{
    let mut all = Children::new(p.alloc());
    all.push(first)?;
    'items: while p.sees(Kind::Comma) {
        p.expect(Kind::Comma, weight)?;
        all.push(instance(p, weight)?)?;
    }
    Ok(all)
}

fn instance(p: &mut Parser<'_>, weight: u32) -> Result<Instance, ParseError>
    requires { weight < 2 ^ 30 }
    ensures machine { Reads (N grammar.AnInstance weight ∷ []) p.old result p.new }
    ensures tree { IfOk result (λ x. Spells (spells.AnInstance x) p.old p.new) }
    ensures shorter { OnOk result (length p.new < length p.old) }
{
    let name = identifier(p.expect(Kind::Word, weight)?);
    p.expect(Kind::LeftParen, weight)?;
    let connections = connections(p, weight + 1)?;
    p.expect(Kind::RightParen, weight + 1)?;
    Ok(Instance { name, connections })
}

// Connections by name, or by order.
fn connections(p: &mut Parser<'_>, weight: u32) -> Result<Connections, ParseError>
    requires { weight < 2 ^ 30 }
    ensures machine { Reads (N grammar.AConnections weight ∷ []) p.old result p.new }
    ensures tree { IfOk result (λ x. Spells (spells.AConnections x) p.old p.new) }
    ensures shorter { OnOk result (length p.new ≤ length p.old) }
{
    if p.sees(Kind::Dot) {
        let first = named_connection(p, weight)?;
        let all = more_named(p, first, weight)?;
        return Ok(Connections::Named(all));
    }
    let first = ordered_connection(p, weight)?;
    let all = more_ordered(p, first, weight)?;
    Ok(Connections::Ordered(all))
}

fn named_connection(p: &mut Parser<'_>, weight: u32) -> Result<NamedConnection, ParseError>
    requires { weight < 2 ^ 30 }
    ensures machine { Reads (N grammar.ANamedConnection weight ∷ []) p.old result p.new }
    ensures tree { IfOk result (λ x. Spells (spells.ANamedConnection x) p.old p.new) }
    ensures shorter { OnOk result (length p.new < length p.old) }
{
    let at = p.expect(Kind::Dot, weight)?.at;
    let name = identifier(p.expect(Kind::Word, weight)?);
    p.expect(Kind::LeftParen, weight)?;
    let value = optional_expression(p, weight + 1)?;
    p.expect(Kind::RightParen, weight + 1)?;
    Ok(NamedConnection { at, name, value })
}

// Further connections by name, behind the first.
fn more_named(
    p: &mut Parser<'_>,
    first: NamedConnection,
    weight: u32,
) -> Result<Children<NamedConnection>, ParseError>
    requires { weight < 2 ^ 30 }
    ensures machine { Reads (N grammar.MoreNamed weight ∷ []) p.old result p.new }
    ensures tree { IfOk result (λ xs. Spells (spells.NamedBehind first xs) p.old p.new) }
    ensures shorter { OnOk result (length p.new ≤ length p.old) }
{
    let mut all = Children::new(p.alloc());
    all.push(first)?;
    'items: while p.sees(Kind::Comma) {
        p.expect(Kind::Comma, weight)?;
        all.push(named_connection(p, weight)?)?;
    }
    Ok(all)
}

// A connection by order, which may be empty.
fn ordered_connection(p: &mut Parser<'_>, weight: u32) -> Result<OrderedConnection, ParseError>
    requires { weight < 2 ^ 30 }
    ensures machine { Reads (N grammar.AnOrdered weight ∷ []) p.old result p.new }
    ensures tree { IfOk result (λ x. Spells (spells.AnOrdered x) p.old p.new) }
    ensures shorter { OnOk result (length p.new ≤ length p.old) }
{
    let at = p.place();
    let value = optional_expression(p, weight)?;
    Ok(OrderedConnection { at, value })
}

// Further connections by order, behind the first.
fn more_ordered(
    p: &mut Parser<'_>,
    first: OrderedConnection,
    weight: u32,
) -> Result<Children<OrderedConnection>, ParseError>
    requires { weight < 2 ^ 30 }
    ensures machine { Reads (N grammar.MoreOrdered weight ∷ []) p.old result p.new }
    ensures tree { IfOk result (λ xs. Spells (spells.OrderedBehind first xs) p.old p.new) }
    ensures shorter { OnOk result (length p.new ≤ length p.old) }
{
    let mut all = Children::new(p.alloc());
    all.push(first)?;
    'items: while p.sees(Kind::Comma) {
        p.expect(Kind::Comma, weight)?;
        all.push(ordered_connection(p, weight)?)?;
    }
    Ok(all)
}

fn optional_expression(p: &mut Parser<'_>, weight: u32) -> Result<Option<Child<Expr>>, ParseError>
    requires { weight < 2 ^ 30 }
    ensures machine { Reads (N grammar.OptionalExpression weight ∷ []) p.old result p.new }
    ensures tree { IfOk result (λ x. Spells (spells.OptionalExpression x) p.old p.new) }
    ensures shorter { OnOk result (length p.new ≤ length p.old) }
{
    if !p.sees_expression() {
        return Ok(None);
    }
    let value = Child::new(p.alloc(), p.expression(weight)?)?;
    Ok(Some(value))
}
