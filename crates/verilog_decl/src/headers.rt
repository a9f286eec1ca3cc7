// The header of a module.
#![tactic(auto, using(verilog_expr::proofs::Runs::runs, verilog_expr::proofs::Runs::loops, verilog_expr::proofs::Entries::module_entries, crate::proofs::HeaderTrees::header_trees))]

ghost use Rattle.std.specs.Prelude.{◌≡◌, ◌≤◌, ◌<◌, ◌+◌, ◌^◌, [], ◌∷◌, length, OnOk, IfOk};
ghost use Rattle.verilog_expr.specs.Grammar as grammar;
ghost use Rattle.verilog_expr.specs.Grammar.{N};
ghost use Rattle.verilog_expr.specs.Reads.{Reads};
ghost use Rattle.verilog_decl.specs.Headers as spells;
ghost use Rattle.verilog_decl.specs.Headers.{Spells};

use crate::declaration::{names, optional_net, optional_wire, parameter, shape, variable};
use verilog_ast::{Children, HeaderParameter, HeaderPort, Ports};
use verilog_expr::{ParseError, Parser, identifier};
use verilog_lex::Kind;

/// What follows the name of a module: its parameters and its ports.
pub fn header(
    p: &mut Parser<'_>,
    weight: u32,
) -> Result<(Children<HeaderParameter>, Ports), ParseError>
    requires { weight < 2 ^ 30 }
    ensures machine { Reads (N grammar.AHeader weight ∷ []) p.old result p.new }
    ensures tree { IfOk result (λ x. Spells (spells.AHeader x.0 x.1) p.old p.new) }
    ensures shorter { OnOk result (length p.new < length p.old) }
{
    let parameters = parameter_header(p, weight)?;
    let ports = port_header(p, weight)?;
    p.expect(Kind::Semicolon, weight)?;
    Ok((parameters, ports))
}

fn parameter_header(
    p: &mut Parser<'_>,
    weight: u32,
) -> Result<Children<HeaderParameter>, ParseError>
    requires { weight < 2 ^ 30 }
    ensures machine { Reads (N grammar.ParameterHeader weight ∷ []) p.old result p.new }
    ensures tree { IfOk result (λ xs. Spells (spells.ParameterHeader xs) p.old p.new) }
    ensures shorter { OnOk result (length p.new ≤ length p.old) }
{
    if !p.sees(Kind::Hash) {
        return Ok(Children::new(p.alloc()));
    }
    p.expect(Kind::Hash, weight)?;
    p.expect(Kind::LeftParen, weight)?;
    let first = shaped_parameter(p, weight + 1)?;
    let all = more_header_parameters(p, first, weight + 1)?;
    p.expect(Kind::RightParen, weight + 1)?;
    Ok(all)
}

// A parameter of a header with its `parameter`.
fn shaped_parameter(p: &mut Parser<'_>, weight: u32) -> Result<HeaderParameter, ParseError>
    requires { weight < 2 ^ 30 }
    ensures machine { Reads (N grammar.AShapedParameter weight ∷ []) p.old result p.new }
    ensures tree { IfOk result (λ x. Spells (spells.AShapedParameter x) p.old p.new) }
    ensures shorter { OnOk result (length p.new < length p.old) }
{
    p.expect(Kind::Parameter, weight)?;
    let shape = shape(p, weight)?;
    let parameter = parameter(p, weight)?;
    Ok(HeaderParameter {
        shape: Some(shape),
        parameter,
    })
}

// Further parameters of a header, each after a comma, behind the first.
fn more_header_parameters(
    p: &mut Parser<'_>,
    first: HeaderParameter,
    weight: u32,
) -> Result<Children<HeaderParameter>, ParseError>
    requires { weight < 2 ^ 30 }
    ensures machine { Reads (N grammar.MoreHeaderParameters weight ∷ []) p.old result p.new }
    ensures tree { IfOk result (λ xs. Spells (spells.HeaderParametersBehind first xs) p.old p.new) }
    ensures shorter { OnOk result (length p.new ≤ length p.old) }
{
    let mut all = Children::new(p.alloc());
    all.push(first)?;
    'items: while p.sees(Kind::Comma) {
        p.expect(Kind::Comma, weight)?;
        all.push(header_parameter(p, weight)?)?;
    }
    Ok(all)
}

fn header_parameter(p: &mut Parser<'_>, weight: u32) -> Result<HeaderParameter, ParseError>
    requires { weight < 2 ^ 30 }
    ensures machine { Reads (N grammar.AHeaderParameter weight ∷ []) p.old result p.new }
    ensures tree { IfOk result (λ x. Spells (spells.AHeaderParameter x) p.old p.new) }
    ensures shorter { OnOk result (length p.new < length p.old) }
{
    if p.sees(Kind::Parameter) {
        return shaped_parameter(p, weight);
    }
    let parameter = parameter(p, weight)?;
    Ok(HeaderParameter {
        shape: None,
        parameter,
    })
}

fn port_header(p: &mut Parser<'_>, weight: u32) -> Result<Ports, ParseError>
    requires { weight < 2 ^ 30 }
    ensures machine { Reads (N grammar.PortHeader weight ∷ []) p.old result p.new }
    ensures tree { IfOk result (λ x. Spells (spells.PortHeader x) p.old p.new) }
    ensures shorter { OnOk result (length p.new ≤ length p.old) }
{
    if !p.sees(Kind::LeftParen) {
        return Ok(Ports::Nothing);
    }
    p.expect(Kind::LeftParen, weight)?;
    let ports = port_list(p, weight + 1)?;
    p.expect(Kind::RightParen, weight + 1)?;
    Ok(ports)
}

// Names alone, or declarations, or nothing.
fn port_list(p: &mut Parser<'_>, weight: u32) -> Result<Ports, ParseError>
    requires { weight < 2 ^ 30 }
    ensures machine { Reads (N grammar.PortList weight ∷ []) p.old result p.new }
    ensures tree { IfOk result (λ x. Spells (spells.PortList x) p.old p.new) }
    ensures shorter { OnOk result (length p.new ≤ length p.old) }
{
    if p.sees(Kind::Word) {
        let all = names(p, weight)?;
        return Ok(Ports::Names(all));
    }
    if p.sees(Kind::Input) {
        let all = declared_ports(p, weight)?;
        return Ok(Ports::Declarations(all));
    }
    if p.sees(Kind::Output) {
        let all = declared_ports(p, weight)?;
        return Ok(Ports::Declarations(all));
    }
    Ok(Ports::Nothing)
}

fn declared_ports(p: &mut Parser<'_>, weight: u32) -> Result<Children<HeaderPort>, ParseError>
    requires { weight < 2 ^ 30 }
    ensures machine { Reads (N grammar.DeclaredPorts weight ∷ []) p.old result p.new }
    ensures tree { IfOk result (λ xs. Spells (spells.DeclaredPorts xs) p.old p.new) }
    ensures shorter { OnOk result (length p.new < length p.old) }
{
    let first = header_port(p, weight)?;
    let all = more_header_ports(p, first, weight)?;
    Ok(all)
}

// Further ports, each after a comma, behind the first.
fn more_header_ports(
    p: &mut Parser<'_>,
    first: HeaderPort,
    weight: u32,
) -> Result<Children<HeaderPort>, ParseError>
    requires { weight < 2 ^ 30 }
    ensures machine { Reads (N grammar.MoreHeaderPorts weight ∷ []) p.old result p.new }
    ensures tree { IfOk result (λ xs. Spells (spells.HeaderPortsBehind first xs) p.old p.new) }
    ensures shorter { OnOk result (length p.new ≤ length p.old) }
{
    let mut all = Children::new(p.alloc());
    all.push(first)?;
    'items: while p.sees(Kind::Comma) {
        p.expect(Kind::Comma, weight)?;
        all.push(next_header_port(p, weight)?)?;
    }
    Ok(all)
}

// A port with its direction.
fn header_port(p: &mut Parser<'_>, weight: u32) -> Result<HeaderPort, ParseError>
    requires { weight < 2 ^ 30 }
    ensures machine { Reads (N grammar.AHeaderPort weight ∷ []) p.old result p.new }
    ensures tree { IfOk result (λ x. Spells (spells.AHeaderPort x) p.old p.new) }
    ensures shorter { OnOk result (length p.new < length p.old) }
{
    match p.peek() {
        Kind::Input => {
            let at = p.expect(Kind::Input, weight)?.at;
            let net = optional_wire(p, weight)?;
            let shape = shape(p, weight)?;
            let name = identifier(p.expect(Kind::Word, weight)?);
            Ok(HeaderPort::Input(at, net, shape, name))
        }
        Kind::Output => {
            let at = p.expect(Kind::Output, weight)?.at;
            let net = optional_net(p, weight)?;
            let shape = shape(p, weight)?;
            let variable = variable(p, weight)?;
            Ok(HeaderPort::Output(at, net, shape, variable))
        }
        _ => Err(p.stuck()),
    }
}

// A further port: a name alone has the declaration of the port before.
fn next_header_port(p: &mut Parser<'_>, weight: u32) -> Result<HeaderPort, ParseError>
    requires { weight < 2 ^ 30 }
    ensures machine { Reads (N grammar.NextHeaderPort weight ∷ []) p.old result p.new }
    ensures tree { IfOk result (λ x. Spells (spells.NextHeaderPort x) p.old p.new) }
    ensures shorter { OnOk result (length p.new < length p.old) }
{
    if p.sees(Kind::Word) {
        let variable = variable(p, weight)?;
        return Ok(HeaderPort::Next(variable));
    }
    header_port(p, weight)
}
