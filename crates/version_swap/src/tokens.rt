// From files to tokens.
ghost use Rattle.std.specs.Prelude.{◌≡◌, ◌≤◌, List, length, map, Ok, IfOk, IfErr};
ghost use Rattle.std.specs.List.{All};
ghost use Rattle.ls_text.specs.declared.piece.Piece.{Piece};
ghost use Rattle.ls_text.specs.Texts.{Grows};
ghost use Rattle.ls_text.specs.Readings.{Gives, CanShow};
ghost use Rattle.verilog_lex.specs.Ends.{EndsOnce};
ghost use Rattle.verilog_lex.specs.Readings.{Reads};
ghost use Rattle.verilog_lex.specs.Views.{said, IsNamed};
ghost use Rattle.version_swap.specs.Texts.{file_tokens};

use ls_text::{Names, Refusal, SourceFile};
use std::alloc::Global;
use verilog_lex::{Token, lex};
use verilog_pre::preprocess;

/// The tokens of files, or the first fault: of the preprocessor, and then of the lexer.
#[tactic(auto, using(crate::proofs::ReadTexts::no_tokens))]
pub fn file_tokens(
    alloc: Global,
    names: &mut Names,
    files: &[SourceFile],
) -> Result<Vec<Token>, Refusal>
    requires files { length files.now ≤ 256 }
    requires texts { All (λ f. length f.text ≤ 4194304) files.now }
    ensures tokens { Gives names.new (λ ts. map (said names.new) ts.items) result (file_tokens files.now) }
    ensures reads { IfOk result (λ ts. (pieces : List Piece) × Reads files.now pieces (Ok (map (said names.new) ts.items))) }
    ensures ends { IfOk result (λ ts. EndsOnce ts.items) }
    ensures named { IfOk result (λ ts. All (IsNamed (length names.new)) ts.items) }
    ensures known { IfErr result (CanShow (length names.new)) }
    ensures grows { Grows names.old names.new }
{
    match preprocess(alloc, names, files) {
        Ok(pieces) => lex(alloc, names, files, &pieces),
        Err(refusal) => Err(refusal),
    }
}
