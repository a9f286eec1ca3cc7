// Whole texts.
#![tactic(auto, using(verilog_expr::proofs::Runs::runs, verilog_expr::proofs::Runs::loops, verilog_expr::proofs::Entries::module_entries))]

ghost use Rattle.std.specs.Prelude.{◌≡◌, ◌<◌, ◌≤◌, [], ◌∷◌, length, All, IfOk, IfErr, OnOk};
ghost use Rattle.verilog_lex.specs.Ends.{EndsOnce};
ghost use Rattle.verilog_expr.specs.Grammar as grammar;
ghost use Rattle.verilog_expr.specs.Grammar.{N};
ghost use Rattle.verilog_expr.specs.Reads.{Reads, Fails};
ghost use Rattle.verilog_parse.specs.Files.{IsSpelledAs, SpellsAll, Stands, file};

use crate::modules::module;
use ls_text::{Names, TextBytes};
use std::alloc::Global;
use verilog_ast::Module;
use verilog_expr::{ParseError, Parser};
use verilog_lex::{Kind, Token};
use verilog_spelling::spelling;

// A module with its spelling.
fn spelled_module(p: &mut Parser<'_>, names: &Names) -> Result<Module, ParseError>
    requires { All (λ t. t.text.0 < length names.now) p.old }
    ensures machine { Reads (N grammar.AModule 0 ∷ []) p.old result p.new }
    ensures tree { IfOk result (λ x. IsSpelledAs names.now x p.old p.new) }
    ensures named { OnOk result (All (λ t. t.text.0 < length names.now) p.new) }
    ensures shorter { OnOk result (length p.new < length p.old) }
{
    let start = p.rest();
    let body = module(p, 0)?;
    let (own, _) = start.split_at(start.len() - p.rest().len());
    let text = spelling(p.alloc(), names, own)?;
    Ok(Module {
        body,
        spelling: TextBytes::new(text),
    })
}

// Modules up to what is none.
fn modules(p: &mut Parser<'_>, names: &Names) -> Result<Vec<Module>, ParseError>
    requires { All (λ t. t.text.0 < length names.now) p.old }
    ensures machine { Reads (N grammar.Modules 0 ∷ []) p.old result p.new }
    ensures tree { IfOk result (λ all. SpellsAll names.now all.items p.old p.new) }
{
    let mut all = Vec::new(p.alloc());
    'items: while p.sees(Kind::Module) {
        all.push(spelled_module(p, names)?)?;
    }
    Ok(all)
}

/// The modules of all the tokens.
pub fn whole_file(alloc: Global, names: &Names, tokens: &[Token]) -> Result<Vec<Module>, ParseError>
    requires ends { EndsOnce tokens.now }
    requires named { All (λ t. t.text.0 < length names.now) tokens.now }
    ensures tree { IfOk result (λ all. Stands names.now all.items tokens.now) }
    ensures fault { IfErr result (Fails file tokens.now) }
{
    let mut p = Parser::new(alloc, tokens);
    let all = modules(&mut p, names)?;
    p.expect(Kind::End, 0)?;
    Ok(all)
}
