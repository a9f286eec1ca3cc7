// A row's text, one file, to its modules.
ghost use Rattle.std.specs.Prelude.{◌≤◌, length, IfOk};
ghost use Rattle.std.specs.List.{All};
ghost use Rattle.verilog_lex.specs.Ends.{EndsOnce};
ghost use Rattle.verilog_lex.specs.Views.{IsNamed};

use ls_text::{Names, NoMemory, Refusal, SourceFile, TextBytes};
use std::alloc::Global;
use verilog_ast::Module;
use verilog_lex::{Token, lex};
use verilog_parse::parse;
use verilog_pre::preprocess;

// A text of at most 4,194,304 bytes; nothing of a longer one.
fn if_short(text: &[u8]) -> &[u8]
    ensures { length result.now ≤ 4194304 }
{
    if text.len() <= 4_194_304 { text } else { b"" }
}

fn source_file(alloc: Global, names: &mut Names, text: &[u8]) -> Result<SourceFile, NoMemory>
    ensures { IfOk result (λ f. length f.text ≤ 4194304) }
{
    let name = names.intern(b"a.v")?;
    Ok(SourceFile {
        name,
        text: TextBytes::new(Vec::from_slice(alloc, if_short(text))?),
    })
}

fn tokens_of(alloc: Global, names: &mut Names, files: &[SourceFile]) -> Result<Vec<Token>, Refusal>
    requires files { length files.now ≤ 256 }
    requires texts { All (λ f. length f.text ≤ 4194304) files.now }
    ensures ends { IfOk result (λ ts. EndsOnce ts.items) }
    ensures named { IfOk result (λ ts. All (IsNamed (length names.new)) ts.items) }
{
    match preprocess(alloc, names, files) {
        Ok(pieces) => lex(alloc, names, files, &pieces),
        Err(refusal) => Err(refusal),
    }
}

/// The modules of a text, or the first fault: of the preprocessor, of the lexer, of the parser.
pub fn modules_of(alloc: Global, names: &mut Names, text: &[u8]) -> Result<Vec<Module>, Refusal> {
    let file = source_file(alloc, names, text)?;
    let files = [file];
    let tokens = tokens_of(alloc, names, &files)?;
    parse(alloc, names, &tokens)
}
