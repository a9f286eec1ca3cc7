// Declarations: signs, ranges, names with their values, parameters.
#![tactic(auto, using(verilog_expr::proofs::Runs::runs, verilog_expr::proofs::Runs::loops, verilog_expr::proofs::Entries::plain_entries, crate::proofs::DeclarationTrees::declaration_trees))]

ghost use Rattle.std.specs.Prelude.{◌≡◌, ◌≤◌, ◌<◌, ◌+◌, ◌^◌, [], ◌∷◌, length, OnOk, IfOk};
ghost use Rattle.verilog_expr.specs.Grammar as grammar;
ghost use Rattle.verilog_expr.specs.Grammar.{N};
ghost use Rattle.verilog_expr.specs.Reads.{Reads};
ghost use Rattle.verilog_decl.specs.Declarations as spells;
ghost use Rattle.verilog_decl.specs.Declarations.{Spells};

use verilog_ast::{
    Child, Children, Expr, Identifier, Parameter, PortNet, Range, RegVariable, Shape, Variable,
};
use verilog_expr::{ParseError, Parser, identifier};
use verilog_lex::Kind;

/// The sign and the range of a declaration.
pub fn shape(p: &mut Parser<'_>, weight: u32) -> Result<Shape, ParseError>
    requires { weight < 2 ^ 30 }
    ensures machine { Reads (N grammar.AShape weight ∷ []) p.old result p.new }
    ensures tree { IfOk result (λ x. Spells (spells.AShape x) p.old p.new) }
    ensures shorter { OnOk result (length p.new ≤ length p.old) }
{
    let signed = optional_signed(p, weight)?;
    let range = optional_range(p, weight)?;
    Ok(Shape { signed, range })
}

fn optional_signed(p: &mut Parser<'_>, weight: u32) -> Result<bool, ParseError>
    requires { weight < 2 ^ 30 }
    ensures machine { Reads (N grammar.OptionalSigned weight ∷ []) p.old result p.new }
    ensures tree { IfOk result (λ x. Spells (spells.OptionalSigned x) p.old p.new) }
    ensures shorter { OnOk result (length p.new ≤ length p.old) }
{
    if !p.sees(Kind::Signed) {
        return Ok(false);
    }
    p.expect(Kind::Signed, weight)?;
    Ok(true)
}

fn optional_range(p: &mut Parser<'_>, weight: u32) -> Result<Option<Range>, ParseError>
    requires { weight < 2 ^ 30 }
    ensures machine { Reads (N grammar.OptionalRange weight ∷ []) p.old result p.new }
    ensures tree { IfOk result (λ x. Spells (spells.OptionalRange x) p.old p.new) }
    ensures shorter { OnOk result (length p.new ≤ length p.old) }
{
    if !p.sees(Kind::LeftBracket) {
        return Ok(None);
    }
    let range = p.range(weight)?;
    Ok(Some(range))
}

/// The `wire` that may follow `input`.
pub fn optional_wire(p: &mut Parser<'_>, weight: u32) -> Result<PortNet, ParseError>
    requires { weight < 2 ^ 30 }
    ensures machine { Reads (N grammar.OptionalWire weight ∷ []) p.old result p.new }
    ensures tree { IfOk result (λ x. Spells (spells.OptionalWire x) p.old p.new) }
    ensures shorter { OnOk result (length p.new ≤ length p.old) }
{
    if !p.sees(Kind::Wire) {
        return Ok(PortNet::Nothing);
    }
    p.expect(Kind::Wire, weight)?;
    Ok(PortNet::Wire)
}

/// The `wire` or `reg` that may follow `output`.
pub fn optional_net(p: &mut Parser<'_>, weight: u32) -> Result<PortNet, ParseError>
    requires { weight < 2 ^ 30 }
    ensures machine { Reads (N grammar.OptionalNet weight ∷ []) p.old result p.new }
    ensures tree { IfOk result (λ x. Spells (spells.OptionalNet x) p.old p.new) }
    ensures shorter { OnOk result (length p.new ≤ length p.old) }
{
    if p.sees(Kind::Wire) {
        p.expect(Kind::Wire, weight)?;
        return Ok(PortNet::Wire);
    }
    if p.sees(Kind::Reg) {
        p.expect(Kind::Reg, weight)?;
        return Ok(PortNet::Reg);
    }
    Ok(PortNet::Nothing)
}

/// Names with commas between.
pub fn names(p: &mut Parser<'_>, weight: u32) -> Result<Children<Identifier>, ParseError>
    requires { weight < 2 ^ 30 }
    ensures machine { Reads (N grammar.Names weight ∷ []) p.old result p.new }
    ensures tree { IfOk result (λ xs. Spells (spells.Names xs) p.old p.new) }
    ensures shorter { OnOk result (length p.new < length p.old) }
{
    let first = identifier(p.expect(Kind::Word, weight)?);
    let all = more_names(p, first, weight)?;
    Ok(all)
}

// Further names, each after a comma, behind the first.
fn more_names(
    p: &mut Parser<'_>,
    first: Identifier,
    weight: u32,
) -> Result<Children<Identifier>, ParseError>
    requires { weight < 2 ^ 30 }
    ensures machine { Reads (N grammar.MoreNames weight ∷ []) p.old result p.new }
    ensures tree { IfOk result (λ xs. Spells (spells.NamesBehind first xs) p.old p.new) }
    ensures shorter { OnOk result (length p.new ≤ length p.old) }
{
    let mut all = Children::new(p.alloc());
    all.push(first)?;
    'items: while p.sees(Kind::Comma) {
        p.expect(Kind::Comma, weight)?;
        let name = identifier(p.expect(Kind::Word, weight)?);
        all.push(name)?;
    }
    Ok(all)
}

/// A name with its value, or without.
pub fn variable(p: &mut Parser<'_>, weight: u32) -> Result<Variable, ParseError>
    requires { weight < 2 ^ 30 }
    ensures machine { Reads (N grammar.AVariable weight ∷ []) p.old result p.new }
    ensures tree { IfOk result (λ x. Spells (spells.AVariable x) p.old p.new) }
    ensures shorter { OnOk result (length p.new < length p.old) }
{
    let name = identifier(p.expect(Kind::Word, weight)?);
    let value = optional_value(p, weight)?;
    Ok(Variable { name, value })
}

fn optional_value(p: &mut Parser<'_>, weight: u32) -> Result<Option<Child<Expr>>, ParseError>
    requires { weight < 2 ^ 30 }
    ensures machine { Reads (N grammar.OptionalValue weight ∷ []) p.old result p.new }
    ensures tree { IfOk result (λ x. Spells (spells.OptionalValue x) p.old p.new) }
    ensures shorter { OnOk result (length p.new ≤ length p.old) }
{
    if !p.sees(Kind::Equal) {
        return Ok(None);
    }
    p.expect(Kind::Equal, weight)?;
    let value = Child::new(p.alloc(), p.expression(weight)?)?;
    Ok(Some(value))
}

/// Names with their values, with commas between.
pub fn variables(p: &mut Parser<'_>, weight: u32) -> Result<Children<Variable>, ParseError>
    requires { weight < 2 ^ 30 }
    ensures machine { Reads (N grammar.Variables weight ∷ []) p.old result p.new }
    ensures tree { IfOk result (λ xs. Spells (spells.Variables xs) p.old p.new) }
    ensures shorter { OnOk result (length p.new < length p.old) }
{
    let first = variable(p, weight)?;
    let all = more_variables(p, first, weight)?;
    Ok(all)
}

// Further names with their values, behind the first.
fn more_variables(
    p: &mut Parser<'_>,
    first: Variable,
    weight: u32,
) -> Result<Children<Variable>, ParseError>
    requires { weight < 2 ^ 30 }
    ensures machine { Reads (N grammar.MoreVariables weight ∷ []) p.old result p.new }
    ensures tree { IfOk result (λ xs. Spells (spells.VariablesBehind first xs) p.old p.new) }
    ensures shorter { OnOk result (length p.new ≤ length p.old) }
{
    let mut all = Children::new(p.alloc());
    all.push(first)?;
    'items: while p.sees(Kind::Comma) {
        p.expect(Kind::Comma, weight)?;
        all.push(variable(p, weight)?)?;
    }
    Ok(all)
}

// A name that `reg` declares, with its value or without.
fn reg_variable(p: &mut Parser<'_>, weight: u32) -> Result<RegVariable, ParseError>
    requires { weight < 2 ^ 30 }
    ensures machine { Reads (N grammar.AVariable weight ∷ []) p.old result p.new }
    ensures tree { IfOk result (λ x. Spells (spells.ARegVariable x) p.old p.new) }
    ensures shorter { OnOk result (length p.new < length p.old) }
{
    let Variable { name, value } = variable(p, weight)?;
    Ok(RegVariable {
        name,
        value,
        addresses: None,
    })
}

/// Names that `reg` declares, with commas between.
pub fn reg_variables(p: &mut Parser<'_>, weight: u32) -> Result<Children<RegVariable>, ParseError>
    requires { weight < 2 ^ 30 }
    ensures machine { Reads (N grammar.Variables weight ∷ []) p.old result p.new }
    ensures tree { IfOk result (λ xs. Spells (spells.RegVariables xs) p.old p.new) }
    ensures shorter { OnOk result (length p.new < length p.old) }
{
    let first = reg_variable(p, weight)?;
    let all = more_reg_variables(p, first, weight)?;
    Ok(all)
}

// Further names of `reg`, behind the first.
fn more_reg_variables(
    p: &mut Parser<'_>,
    first: RegVariable,
    weight: u32,
) -> Result<Children<RegVariable>, ParseError>
    requires { weight < 2 ^ 30 }
    ensures machine { Reads (N grammar.MoreVariables weight ∷ []) p.old result p.new }
    ensures tree { IfOk result (λ xs. Spells (spells.RegVariablesBehind first xs) p.old p.new) }
    ensures shorter { OnOk result (length p.new ≤ length p.old) }
{
    let mut all = Children::new(p.alloc());
    all.push(first)?;
    'items: while p.sees(Kind::Comma) {
        p.expect(Kind::Comma, weight)?;
        all.push(reg_variable(p, weight)?)?;
    }
    Ok(all)
}

/// A parameter and its value; also the start and the step of a generate loop.
pub fn parameter(p: &mut Parser<'_>, weight: u32) -> Result<Parameter, ParseError>
    requires { weight < 2 ^ 30 }
    ensures machine { Reads (N grammar.AParameter weight ∷ []) p.old result p.new }
    ensures tree { IfOk result (λ x. Spells (spells.AParameter x) p.old p.new) }
    ensures shorter { OnOk result (length p.new < length p.old) }
{
    let name = identifier(p.expect(Kind::Word, weight)?);
    p.expect(Kind::Equal, weight)?;
    let value = Child::new(p.alloc(), p.expression(weight)?)?;
    Ok(Parameter { name, value })
}

/// Parameters with commas between.
pub fn parameters(p: &mut Parser<'_>, weight: u32) -> Result<Children<Parameter>, ParseError>
    requires { weight < 2 ^ 30 }
    ensures machine { Reads (N grammar.Parameters weight ∷ []) p.old result p.new }
    ensures tree { IfOk result (λ xs. Spells (spells.Parameters xs) p.old p.new) }
    ensures shorter { OnOk result (length p.new < length p.old) }
{
    let first = parameter(p, weight)?;
    let all = more_parameters(p, first, weight)?;
    Ok(all)
}

// Further parameters, behind the first.
fn more_parameters(
    p: &mut Parser<'_>,
    first: Parameter,
    weight: u32,
) -> Result<Children<Parameter>, ParseError>
    requires { weight < 2 ^ 30 }
    ensures machine { Reads (N grammar.MoreParameters weight ∷ []) p.old result p.new }
    ensures tree { IfOk result (λ xs. Spells (spells.ParametersBehind first xs) p.old p.new) }
    ensures shorter { OnOk result (length p.new ≤ length p.old) }
{
    let mut all = Children::new(p.alloc());
    all.push(first)?;
    'items: while p.sees(Kind::Comma) {
        p.expect(Kind::Comma, weight)?;
        all.push(parameter(p, weight)?)?;
    }
    Ok(all)
}
