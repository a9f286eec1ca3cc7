// The ports of a header, and ports that the body declares.
ghost use Rattle.std.specs.Prelude.{◌≡◌, map};
ghost use Rattle.std.specs.Option.{option_map};
ghost use Rattle.verilog_ast.specs.Declarations.{header_net};
ghost use Rattle.verilog_ast.specs.Views.{expression_of, range_of as range_view, kind_of, port_of};
ghost use Rattle.width_rules.specs.Entries.{scope_of};
ghost use Rattle.ls_text.specs.Answers.{Answers, Leads};
ghost use Rattle.gen_unroll.specs.Declarations as d;
ghost use Rattle.gen_unroll.specs.ReachViews.{reach_of};
ghost use Rattle.gen_unroll.specs.Views.{bit_range_of};
ghost use Rattle.elaborate.specs.Checks as c;
ghost use Rattle.elaborate.specs.Tables as t;
ghost use Rattle.elaborate.specs.Views.{declaration_of, checked_of};

use crate::checking::Checking;
use crate::declaration::Declaration;
use crate::declaration_kind::DeclarationKind;
use crate::declaring::{declare, declare_net, initial};
use gen_unroll::{BitRange, Reach, range_value};
use ls_text::Refusal;
use std::alloc::Global;
use verilog_ast::{Child, Expr, HeaderPort, Identifier, PortNet, Range, Shape};
use width_rules::{Scope, refused_at};

fn range_of(alloc: Global, scope: &Scope, range: &Range) -> Result<Option<BitRange>, Refusal>
    ensures { Answers result (option_map bit_range_of) (d.range_of (scope_of scope.now) (range_view range.now)) }
{
    let range = range_value(alloc, scope, range)?;
    Ok(Some(range))
}

fn range_or_none(
    alloc: Global,
    scope: &Scope,
    range: &Option<Range>,
) -> Result<Option<BitRange>, Refusal>
    ensures { Answers result (option_map bit_range_of) (d.range_or_none (scope_of scope.now) (option_map range_view range.now)) }
{
    match range {
        None => Ok(None),
        Some(range) => range_of(alloc, scope, range),
    }
}

/// The range of a declaration, where it has one, or its first fault.
pub fn range_of_kind(
    alloc: Global,
    scope: &Scope,
    shape: &Shape,
) -> Result<Option<BitRange>, Refusal>
    ensures { Answers result (option_map bit_range_of) (c.range_of_kind (scope_of scope.now) (kind_of shape.now)) }
{
    range_or_none(alloc, scope, &shape.range)
}

/// A name in the innermost block; 30 NameTwice at a second one there.
#[tactic(auto, unfolding(crate::specs::Checks::plain))]
pub fn plain(
    check: &mut Checking,
    here: &Reach,
    name: Identifier,
    declaration: Declaration,
) -> Result<(), Refusal>
    ensures { Leads result (checked_of check.new) (c.plain (reach_of here.now) name (declaration_of declaration) (checked_of check.old)) }
{
    let block = here.block();
    declare(check.alloc, &mut check.declared, block, name, declaration)
}

/// A port in the list of ports; 28 PortTwice where it stands there already.
#[tactic(auto, unfolding(crate::specs::Checks::list_port))]
pub fn list_port(check: &mut Checking, name: Identifier) -> Result<(), Refusal>
    ensures { Leads result (checked_of check.new) (c.list_port name (checked_of check.old)) }
{
    if check.ports.has(name.name) {
        return Err(refused_at(check.alloc, 28, name));
    }
    check.ports.push(name)?;
    Ok(())
}

// A port that the header declares is complete.
fn header_net(net: PortNet) -> PortNet
    ensures { result ≡ header_net net }
{
    match net {
        PortNet::Nothing | PortNet::Wire => PortNet::Wire,
        PortNet::Reg => PortNet::Reg,
    }
}

#[tactic(auto, unfolding(crate::specs::Checks::declare_port))]
fn declare_port(
    check: &mut Checking,
    here: &Reach,
    name: Identifier,
    declaration: Declaration,
    value: &Option<Child<Expr>>,
) -> Result<(), Refusal>
    ensures { Leads result (checked_of check.new)
        (c.declare_port (reach_of here.now) name (declaration_of declaration) (option_map expression_of value.now) (checked_of check.old)) }
{
    plain(check, here, name, declaration)?;
    check.port = declaration;
    list_port(check, name)?;
    initial(check.alloc, value, name, declaration.kind)
}

/// A port that the header declares (IEEE Std 1364-2005, 12.3.4).
pub fn header_port(check: &mut Checking, here: &Reach, port: &HeaderPort) -> Result<(), Refusal>
    ensures { Leads result (checked_of check.new) (c.header_port (reach_of here.now) (port_of port.now) (checked_of check.old)) }
{
    match port {
        HeaderPort::Input(_, net, shape, name) => {
            let range = range_of_kind(check.alloc, &here.scope, shape)?;
            let declaration = Declaration {
                at: name.at,
                kind: DeclarationKind::Input(header_net(*net)),
                range,
                signed: shape.signed,
            };
            declare_port(check, here, *name, declaration, &None)
        }
        HeaderPort::Output(_, net, shape, variable) => {
            let range = range_of_kind(check.alloc, &here.scope, shape)?;
            let declaration = Declaration {
                at: variable.name.at,
                kind: DeclarationKind::Output(header_net(*net)),
                range,
                signed: shape.signed,
            };
            declare_port(check, here, variable.name, declaration, &variable.value)
        }
        HeaderPort::Next(variable) => {
            let declaration = Declaration {
                at: variable.name.at,
                kind: check.port.kind,
                range: check.port.range,
                signed: check.port.signed,
            };
            declare_port(check, here, variable.name, declaration, &variable.value)
        }
    }
}

/// A port that the body declares: 30 at a second declaration, and 27 NoPort where the header doesn't list it.
#[tactic(auto, unfolding(crate::specs::Checks::body_port))]
pub fn body_port(
    check: &mut Checking,
    here: &Reach,
    kind: DeclarationKind,
    range: Option<BitRange>,
    signed: bool,
    name: Identifier,
) -> Result<(), Refusal>
    ensures { Leads result (checked_of check.new) (c.body_port (reach_of here.now) kind (option_map bit_range_of range) signed name (checked_of check.old)) }
{
    let declaration = Declaration {
        at: name.at,
        kind,
        range,
        signed,
    };
    plain(check, here, name, declaration)?;
    if check.ports.has(name.name) {
        Ok(())
    } else {
        Err(refused_at(check.alloc, 27, name))
    }
}

fn kind_of_net(net: PortNet) -> DeclarationKind
    ensures { result ≡ t.kind_of_net net }
{
    match net {
        PortNet::Nothing | PortNet::Wire => DeclarationKind::Wire,
        PortNet::Reg => DeclarationKind::Reg,
    }
}

/// A net or variable, or once more a port of the same range and sign.
#[tactic(auto, unfolding(crate::specs::Checks::variable))]
pub fn variable(
    check: &mut Checking,
    here: &Reach,
    net: PortNet,
    range: Option<BitRange>,
    signed: bool,
    name: Identifier,
    value: &Option<Child<Expr>>,
) -> Result<(), Refusal>
    ensures { Leads result (checked_of check.new)
        (c.variable (reach_of here.now) net (option_map bit_range_of range) signed name (option_map expression_of value.now) (checked_of check.old)) }
{
    let declaration = Declaration {
        at: name.at,
        kind: kind_of_net(net),
        range,
        signed,
    };
    let block = here.block();
    declare_net(
        check.alloc,
        &mut check.declared,
        block,
        name,
        net,
        declaration,
        value,
    )
}
