// Declarations of names, of which a second one in a scope is refused.
ghost use Rattle.std.specs.Prelude.{◌≡◌};
ghost use Rattle.std.specs.Option.{option_map};
ghost use Rattle.verilog_ast.specs.Views.{expression_of};
ghost use Rattle.ls_text.specs.Answers.{Answers, Leads};
ghost use Rattle.gen_unroll.specs.Views.{bit_range_of, here_of};
ghost use Rattle.elaborate.specs.Tables as t;
ghost use Rattle.elaborate.specs.Views.{declaration_of, table_of};

use crate::declaration::Declaration;
use crate::declaration_kind::DeclarationKind;
use crate::declarations::Declarations;
use gen_unroll::{BitRange, BlockId};
use ls_text::Refusal;
use std::alloc::Global;
use verilog_ast::{Child, Expr, Identifier, PortNet};
use width_rules::refused_at;

/// A declaration in a block, or in the module itself; 30 NameTwice at a second one of the name there.
#[tactic(auto, unfolding(crate::specs::Tables::declare))]
pub fn declare(
    alloc: Global,
    table: &mut Declarations,
    here: Option<BlockId>,
    name: Identifier,
    declaration: Declaration,
) -> Result<(), Refusal>
    ensures { Leads result (table_of table.new) (t.declare (here_of here) name (declaration_of declaration) (table_of table.old)) }
{
    match table.find(here, name.name) {
        Some(_) => Err(refused_at(alloc, 30, name)),
        None => Ok(table.put(here, name.name, declaration)?),
    }
}

/// Whether it is an input.
pub fn is_input(kind: DeclarationKind) -> bool
    ensures { result ≡ t.is_input kind }
{
    match kind {
        DeclarationKind::Input(_) => true,
        _ => false,
    }
}

/// Whether it is a port.
pub fn is_port(kind: DeclarationKind) -> bool
    ensures { result ≡ t.is_port kind }
{
    match kind {
        DeclarationKind::Input(_) | DeclarationKind::Output(_) => true,
        _ => false,
    }
}

// Whether it is a port that was declared without `wire` or `reg`.
fn is_incomplete(kind: DeclarationKind) -> bool
    ensures { result ≡ t.is_incomplete kind }
{
    match kind {
        DeclarationKind::Input(PortNet::Nothing) | DeclarationKind::Output(PortNet::Nothing) =>
            true,
        _ => false,
    }
}

// Whether two ranges have the same bounds.
fn same_range(left: Option<BitRange>, right: Option<BitRange>) -> bool
    ensures { result ≡ t.same_range (option_map bit_range_of left) (option_map bit_range_of right) }
{
    match (left, right) {
        (None, None) => true,
        (Some(left), Some(right)) => left.width == right.width && left.low == right.low,
        _ => false,
    }
}

fn same_sign(left: bool, right: bool) -> bool
    ensures { result ≡ t.same_sign left right }
{
    if left { right } else { !right }
}

// Whether `wire` or `reg` completes a port: it has the same bounds and sign.
fn completes(port: Declaration, declaration: Declaration) -> bool
    ensures { result ≡ t.completes (declaration_of port) (declaration_of declaration) }
{
    is_incomplete(port.kind)
        && same_range(port.range, declaration.range)
        && same_sign(port.signed, declaration.signed)
}

fn completed_kind(kind: DeclarationKind, net: PortNet) -> DeclarationKind
    ensures { result ≡ t.completed_kind kind net }
{
    match kind {
        DeclarationKind::Input(_) => DeclarationKind::Input(net),
        DeclarationKind::Output(_) => DeclarationKind::Output(net),
        other => other,
    }
}

// What a name is behind `wire` or `reg`: 30 where it is declared, but for a port that this completes.
fn net_over(
    alloc: Global,
    before: Option<Declaration>,
    name: Identifier,
    net: PortNet,
    declaration: Declaration,
) -> Result<Declaration, Refusal>
    ensures { Answers result declaration_of (t.net_over (option_map declaration_of before) name net (declaration_of declaration)) }
{
    let Some(port) = before else {
        return Ok(declaration);
    };
    if completes(port, declaration) {
        Ok(Declaration {
            at: port.at,
            kind: completed_kind(port.kind, net),
            range: port.range,
            signed: port.signed,
        })
    } else {
        Err(refused_at(alloc, 30, name))
    }
}

/// An initial value on an input: 33 BadTarget at the name.
pub fn initial(
    alloc: Global,
    value: &Option<Child<Expr>>,
    name: Identifier,
    kind: DeclarationKind,
) -> Result<(), Refusal>
    ensures { Answers result (λ x. x) (t.initial (option_map expression_of value.now) name kind) }
{
    match value {
        None => Ok(()),
        Some(_) => {
            if is_input(kind) {
                Err(refused_at(alloc, 33, name))
            } else {
                Ok(())
            }
        }
    }
}

/// A net or variable: 30 at a second declaration, but for one that completes a port (IEEE Std 1364-2005, 12.3.3), and 33 at an initial
/// value on an input.
#[tactic(auto, unfolding(crate::specs::Tables::declare_net))]
pub fn declare_net(
    alloc: Global,
    table: &mut Declarations,
    here: Option<BlockId>,
    name: Identifier,
    net: PortNet,
    declaration: Declaration,
    value: &Option<Child<Expr>>,
) -> Result<(), Refusal>
    ensures { Leads result (table_of table.new)
        (t.declare_net (here_of here) name net (declaration_of declaration) (option_map expression_of value.now) (table_of table.old)) }
{
    let before = table.find(here, name.name);
    let found = net_over(alloc, before, name, net, declaration)?;
    let kind = found.kind;
    initial(alloc, value, name, kind)?;
    Ok(table.put(here, name.name, found)?)
}
