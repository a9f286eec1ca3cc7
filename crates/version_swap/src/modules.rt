// From files to their modules.
ghost use Rattle.std.specs.Prelude.{◌≡◌, ◌≤◌, ◌<◌, length, IfOk, IfErr};
ghost use Rattle.std.specs.List.{All};
ghost use Rattle.ls_text.specs.Texts.{Grows};
ghost use Rattle.ls_text.specs.Readings.{CanShow};
ghost use Rattle.verilog_ast.specs.NamesWithin.{names_in_modules};
ghost use Rattle.version_swap.specs.Spelled.{IsSpelledUnder};
ghost use Rattle.version_swap.specs.Founds.{AreModules, IsReadRefusal};

use crate::tokens::file_tokens;
use ls_text::{Names, Refusal, SourceFile};
use std::alloc::Global;
use verilog_ast::Module;
use verilog_parse::parse;

/// The modules of files, or the first fault: of the preprocessor, the lexer and the grammar, one after the other.
pub fn modules_of(
    alloc: Global,
    names: &mut Names,
    files: &[SourceFile],
) -> Result<Vec<Module>, Refusal>
    requires files { length files.now ≤ 256 }
    requires texts { All (λ f. length f.text ≤ 4194304) files.now }
    ensures modules { IfOk result (λ ms. AreModules names.new files.now ms.items) }
    ensures spelled { IfOk result (λ ms. All (IsSpelledUnder names.new) ms.items) }
    ensures named { IfOk result (λ ms. All (λ id. id.0 < length names.new) (names_in_modules ms.items)) }
    ensures refused { IfErr result (IsReadRefusal names.new files.now) }
    ensures known { IfErr result (CanShow (length names.new)) }
    ensures grows { Grows names.old names.new }
{
    match file_tokens(alloc, names, files) {
        Ok(tokens) => parse(alloc, names, &tokens),
        Err(refusal) => Err(refusal),
    }
}
