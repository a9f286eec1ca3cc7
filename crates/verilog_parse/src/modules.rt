// Modules and their items.
#![tactic(auto, using(verilog_expr::proofs::Runs::runs, verilog_expr::proofs::Runs::loops, verilog_expr::proofs::Entries::module_entries, crate::proofs::ModuleTrees::module_trees))]

ghost use Rattle.std.specs.Prelude.{◌≡◌, ◌≤◌, ◌<◌, ◌+◌, ◌^◌, [], ◌∷◌, length, OnOk, IfOk, MatchBool, true, false};
ghost use Rattle.verilog_lex.specs.declared.kind.Kind.TheVariants.{EndGenerate, Generate, Input, Output, Parameter, Semicolon};
ghost use Rattle.verilog_expr.specs.Tokens.{next};
ghost use Rattle.verilog_expr.specs.Grammar as grammar;
ghost use Rattle.verilog_expr.specs.Grammar.{N, T, begins_item};
ghost use Rattle.verilog_expr.specs.Reads.{Reads};
ghost use Rattle.verilog_parse.specs.Modules as spells;
ghost use Rattle.verilog_parse.specs.Modules.{Spells};

use crate::generate::{generate_item, generate_items};
use verilog_ast::{Children, Item, ModuleBody};
use verilog_decl::{header, names, optional_net, optional_wire, parameters, shape, variables};
use verilog_expr::{ParseError, Parser, identifier};
use verilog_lex::Kind;

/// A module without its spelling.
pub fn module(p: &mut Parser<'_>, weight: u32) -> Result<ModuleBody, ParseError>
    requires { weight < 2 ^ 28 }
    ensures machine { Reads (N grammar.AModule weight ∷ []) p.old result p.new }
    ensures tree { IfOk result (λ x. Spells (spells.AModule x) p.old p.new) }
    ensures shorter { OnOk result (length p.new < length p.old) }
{
    p.expect(Kind::Module, weight)?;
    let name = identifier(p.expect(Kind::Word, weight)?);
    let (parameters, ports) = header(p, weight)?;
    let items = items(p, weight)?;
    p.expect(Kind::EndModule, weight)?;
    Ok(ModuleBody {
        name,
        parameters,
        ports,
        items,
    })
}

fn at_item(p: &Parser<'_>) -> bool
    ensures { MatchBool result (begins_item (next p.now) ≡ true) (begins_item (next p.now) ≡ false) }
{
    matches!(
        p.peek(),
        Kind::Input
            | Kind::Output
            | Kind::Parameter
            | Kind::Generate
            | Kind::Wire
            | Kind::Reg
            | Kind::LocalParam
            | Kind::Genvar
            | Kind::Assign
            | Kind::Always
            | Kind::Word
            | Kind::For
            | Kind::If
    )
}

// Items up to what begins none.
fn items(p: &mut Parser<'_>, weight: u32) -> Result<Children<Item>, ParseError>
    requires { weight < 2 ^ 28 }
    ensures machine { Reads (N grammar.Items weight ∷ []) p.old result p.new }
    ensures tree { IfOk result (λ xs. Spells (spells.Items xs) p.old p.new) }
    ensures shorter { OnOk result (length p.new ≤ length p.old) }
{
    let mut all = Children::new(p.alloc());
    'items: while at_item(p) {
        all.push(item(p, weight)?)?;
    }
    Ok(all)
}

fn item(p: &mut Parser<'_>, weight: u32) -> Result<Item, ParseError>
    requires { weight < 2 ^ 28 }
    ensures machine { Reads (N grammar.AnItem weight ∷ []) p.old result p.new }
    ensures tree { IfOk result (λ x. Spells (spells.AnItem x) p.old p.new) }
    ensures shorter { OnOk result (length p.new < length p.old) }
{
    match p.peek() {
        Kind::Input => {
            let item = input_item(p, weight)?;
            Ok(item)
        }
        Kind::Output => {
            let item = output_item(p, weight)?;
            Ok(item)
        }
        Kind::Parameter => {
            let item = parameter_item(p, weight)?;
            Ok(item)
        }
        Kind::Generate => {
            let item = region(p, weight)?;
            Ok(item)
        }
        _ => {
            let item = generate_item(p, weight)?;
            Ok(Item::Item(item))
        }
    }
}

// `input` and what it declares.
fn input_item(p: &mut Parser<'_>, weight: u32) -> Result<Item, ParseError>
    requires { weight < 2 ^ 28 }
    ensures machine { Reads (T Input weight ∷ N grammar.OptionalWire weight ∷ N grammar.AShape weight ∷ N grammar.Names weight ∷ T Semicolon weight ∷ []) p.old result p.new }
    ensures tree { IfOk result (λ x. Spells (spells.AnItem x) p.old p.new) }
    ensures shorter { OnOk result (length p.new < length p.old) }
{
    let at = p.expect(Kind::Input, weight)?.at;
    let net = optional_wire(p, weight)?;
    let shape = shape(p, weight)?;
    let all = names(p, weight)?;
    p.expect(Kind::Semicolon, weight)?;
    Ok(Item::Input(at, net, shape, all))
}

// `output` and what it declares.
fn output_item(p: &mut Parser<'_>, weight: u32) -> Result<Item, ParseError>
    requires { weight < 2 ^ 28 }
    ensures machine { Reads (T Output weight ∷ N grammar.OptionalNet weight ∷ N grammar.AShape weight ∷ N grammar.Variables weight ∷ T Semicolon weight ∷ []) p.old result p.new }
    ensures tree { IfOk result (λ x. Spells (spells.AnItem x) p.old p.new) }
    ensures shorter { OnOk result (length p.new < length p.old) }
{
    let at = p.expect(Kind::Output, weight)?.at;
    let net = optional_net(p, weight)?;
    let shape = shape(p, weight)?;
    let all = variables(p, weight)?;
    p.expect(Kind::Semicolon, weight)?;
    Ok(Item::Output(at, net, shape, all))
}

// `parameter` and what it declares.
fn parameter_item(p: &mut Parser<'_>, weight: u32) -> Result<Item, ParseError>
    requires { weight < 2 ^ 28 }
    ensures machine { Reads (T Parameter weight ∷ N grammar.AShape weight ∷ N grammar.Parameters weight ∷ T Semicolon weight ∷ []) p.old result p.new }
    ensures tree { IfOk result (λ x. Spells (spells.AnItem x) p.old p.new) }
    ensures shorter { OnOk result (length p.new < length p.old) }
{
    let at = p.expect(Kind::Parameter, weight)?.at;
    let shape = shape(p, weight)?;
    let all = parameters(p, weight)?;
    p.expect(Kind::Semicolon, weight)?;
    Ok(Item::Parameter(at, shape, all))
}

// A generate region: `generate` and its items.
fn region(p: &mut Parser<'_>, weight: u32) -> Result<Item, ParseError>
    requires { weight < 2 ^ 28 }
    ensures machine { Reads (T Generate weight ∷ N grammar.GenerateItems weight ∷ T EndGenerate weight ∷ []) p.old result p.new }
    ensures tree { IfOk result (λ x. Spells (spells.AnItem x) p.old p.new) }
    ensures shorter { OnOk result (length p.new < length p.old) }
{
    let at = p.expect(Kind::Generate, weight)?.at;
    let all = generate_items(p, weight)?;
    p.expect(Kind::EndGenerate, weight)?;
    Ok(Item::Region(at, all))
}
