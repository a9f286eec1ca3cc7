// The modules of a text, or its first fault.
ghost use Rattle.std.specs.Prelude.{◌≡◌, ◌<◌, length, All, IfOk, IfErr};
ghost use Rattle.verilog_lex.specs.Ends.{EndsOnce};
ghost use Rattle.verilog_ast.specs.NamesWithin.{names_in_modules};
ghost use Rattle.verilog_expr.specs.Shown.{Refuses, IsMemoryOrHeavy};
ghost use Rattle.verilog_parse.specs.Files.{Stands, IsSpelled, file};

use crate::file::whole_file;
use ls_text::{Names, Refusal};
use std::alloc::Global;
use verilog_ast::Module;
use verilog_expr::{ParseError, shown};
use verilog_lex::Token;

/// The modules of a text.
///
/// Faults: 15 Syntax or 38 NotInProfile at the first token where the grammar has no rule, 16 NestedTooDeep at the first
/// token at which more than 256 operators, brackets, branches, statements and generate blocks are open; the earlier.
pub fn parse(alloc: Global, names: &mut Names, tokens: &[Token]) -> Result<Vec<Module>, Refusal>
    requires ends { EndsOnce tokens.now }
    requires named { All (λ t. t.text.0 < length names.old) tokens.now }
    ensures tree { IfOk result (λ all. Stands names.old all.items tokens.now) }
    ensures names { IfOk result (λ all. All (λ id. id.0 < length names.old) (names_in_modules all.items)) }
    ensures fault { IfErr result (Refuses file tokens.now) }

    // What the grammar has is read, unless memory runs out or too much is open at a token.
    ensures only { IsSpelled tokens.now → IfErr result IsMemoryOrHeavy }
    ensures table { names.new ≡ names.old }
{
    match whole_file(alloc, names, tokens) {
        Ok(all) => Ok(all),
        Err(ParseError::NoMemory) => Err(Refusal::NoMemory),
        Err(ParseError::Fault(fault)) => match shown(alloc, tokens, fault) {
            Ok(fault) => Err(Refusal::Fault(fault)),
            Err(_) => Err(Refusal::NoMemory),
        },
    }
}
