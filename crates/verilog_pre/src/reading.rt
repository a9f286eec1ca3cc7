// Reading a text: runs of bytes, comments and directives.
ghost use Rattle.std.specs.Prelude.{◌≡◌, ◌<◌, ◌≤◌, ◌+◌, length, IfOk, IfErr, OnOk};
ghost use Rattle.ls_text.specs.Texts.{Grows};
ghost use Rattle.ls_text.specs.Readings.{Gives, CanShow};
ghost use Rattle.verilog_pre.specs.Heads.{Within};
ghost use Rattle.verilog_pre.specs.Reading.{directive_at, directive_read, full_place, run_read, word_read, use_macro, head_at, turn};
ghost use Rattle.verilog_pre.specs.Directives.{directive_of};
ghost use Rattle.verilog_pre.specs.States.{state};
ghost use Rattle.verilog_pre.specs.Tables.{Sound};

use crate::branches::{elsif, endif, ifdef, otherwise};
use crate::conditionals::is_read;
use crate::define::{define, undef};
use crate::directive::Directive;
use crate::directives::{directive_of, is_conditional};
use crate::expand::{emit, expand};
use crate::head::Head;
use crate::heads::head_of;
use crate::left_open::earlier;
use crate::reader::Reader;
use ls_text::{Names, Piece, Place, Refusal, behind, front, line_len, place_after, text_fault};
use std::alloc::Global;

// Carries out the use of a macro.
fn use_macro(
    alloc: Global,
    names: &mut Names,
    reader: &mut Reader,
    at: Place,
    word: &[u8],
) -> Result<usize, Refusal>
    requires { Sound reader.old.macros }
    ensures read { Gives names.new (λ n. (state reader.new, n)) result (use_macro at word.now (state reader.old)) }
    ensures sound { OnOk result (Sound reader.new.macros) }
    ensures within { IfOk result (λ n. n ≡ 0) }
    ensures known { IfErr result (CanShow (length names.new)) }
    ensures grows { Grows names.old names.new }
{
    match expand(alloc, names, &mut reader.macros, &mut reader.out, at, word) {
        Ok(()) => Ok(0),
        Err(refusal) => Err(refusal),
    }
}

// Carries out a directive, and answers how many bytes it has behind its word.
fn directive(
    alloc: Global,
    names: &mut Names,
    reader: &mut Reader,
    at: Place,
    offset: u32,
    word: &[u8],
    rest: &[u8],
) -> Result<usize, Refusal>
    requires sound { Sound reader.old.macros }
    requires room { offset + length rest.now ≤ 4194304 }
    ensures read { Gives names.new (λ n. (state reader.new, n)) result
        (directive_at at offset word.now (state reader.old) rest.now (directive_of word.now)) }
    ensures sound { OnOk result (Sound reader.new.macros) }
    ensures within { IfOk result (λ n. n ≤ length rest.now) }
    ensures known { IfErr result (CanShow (length names.new)) }
    ensures grows { Grows names.old names.new }
{
    match directive_of(word) {
        Directive::Define => define(alloc, names, reader, at, offset, word, rest),
        Directive::Undef => undef(alloc, names, reader, at, word, rest),
        Directive::Ifdef => ifdef(alloc, names, reader, at, false, word, rest),
        Directive::Ifndef => ifdef(alloc, names, reader, at, true, word, rest),
        Directive::Elsif => elsif(alloc, names, reader, at, word, rest),
        Directive::Else => otherwise(alloc, names, reader, at, word),
        Directive::Endif => endif(alloc, names, reader, at, word),
        Directive::RestOfLine => Ok(line_len(rest)),
        Directive::NoEffect => Ok(0),
        Directive::Use => use_macro(alloc, names, reader, at, word),
    }
}

// Carries out a directive where it is read.
#[tactic(auto, unfolding(crate::specs::Reading::directive_read))]
fn read_directive(
    alloc: Global,
    names: &mut Names,
    reader: &mut Reader,
    at: Place,
    offset: u32,
    word: &[u8],
    rest: &[u8],
) -> Result<usize, Refusal>
    requires sound { Sound reader.old.macros }
    requires room { offset + length rest.now ≤ 4194304 }
    ensures read { Gives names.new (λ n. (state reader.new, n)) result
        (directive_read at offset word.now (state reader.old) rest.now) }
    ensures sound { OnOk result (Sound reader.new.macros) }
    ensures within { IfOk result (λ n. n ≤ length rest.now) }
    ensures known { IfErr result (CanShow (length names.new)) }
    ensures grows { Grows names.old names.new }
{
    if is_read(&reader.nest) || is_conditional(directive_of(word)) {
        directive(alloc, names, reader, at, offset, word, rest)
    } else {
        Ok(0)
    }
}

// Reads a backquote and the word of n bytes behind it.
#[tactic(auto, unfolding(crate::specs::Reading::word_read), using(crate::proofs::Uses::worded, crate::proofs::Uses::unworded))]
fn read_word(
    alloc: Global,
    names: &mut Names,
    reader: &mut Reader,
    at: Place,
    offset: u32,
    text: &[u8],
    n: usize,
) -> Result<usize, Refusal>
    requires sound { Sound reader.old.macros }
    requires within { n + 1 ≤ length text.now }
    requires room { offset + length text.now ≤ 4194304 }
    ensures read { Gives names.new (λ n. (state reader.new, n)) result (word_read at offset (state reader.old) text.now n) }
    ensures sound { OnOk result (Sound reader.new.macros) }
    ensures within { IfOk result (λ n. n ≤ length text.now) }
    ensures some { IfOk result (λ n. 0 < n) }
    ensures known { IfErr result (CanShow (length names.new)) }
    ensures grows { Grows names.old names.new }
{
    let name = behind(text, 1);
    let word = front(name, n);
    let rest = behind(name, n);
    let offset = offset + 1 + n as u32;
    match read_directive(alloc, names, reader, at, offset, word, rest) {
        Ok(m) => Ok(1 + word.len() + m),
        Err(refusal) => Err(refusal),
    }
}

// The place of the first byte that would pass the limit, where one of the first n bytes does.
fn full_place(bytes: u32, n: usize, at: Place, text: &[u8]) -> Place
    ensures { result ≡ full_place bytes n at text.now }
{
    if (bytes as usize) < n {
        place_after(at, front(text, bytes as usize))
    } else {
        at
    }
}

// Reads a run of bytes, which is a piece unless it is skipped.
#[tactic(auto, unfolding(crate::specs::Reading::run_read), using(ls_text::proofs::Shown::nameless))]
fn read_run(
    alloc: Global,
    reader: &mut Reader,
    names: &Names,
    at: Place,
    offset: u32,
    text: &[u8],
    n: usize,
) -> Result<usize, Refusal>
    requires sound { Sound reader.old.macros }
    requires room { offset + length text.now ≤ 4194304 }
    requires within { n ≤ length text.now }
    ensures read { Gives names.now (λ n. (state reader.new, n)) result (run_read at offset (state reader.old) text.now n) }
    ensures sound { OnOk result (Sound reader.new.macros) }
    ensures count { IfOk result (λ m. m ≡ n) }
    ensures known { IfErr result (CanShow (length names.now)) }
{
    if !is_read(&reader.nest) {
        return Ok(n);
    }
    let piece = Piece {
        file: at.file,
        start: offset,
        end: offset + n as u32,
        at,
        fixed: false,
    };
    let full = full_place(reader.out.bytes, n, at, text);
    match emit(alloc, &mut reader.out, piece, n, full) {
        Ok(()) => Ok(n),
        Err(refusal) => Err(refusal),
    }
}

// Reads what stands at the head of a text, and answers how many bytes it has.
#[tactic(auto, using(ls_text::proofs::Shown::all_nameless))]
fn read_head(
    alloc: Global,
    names: &mut Names,
    reader: &mut Reader,
    at: Place,
    offset: u32,
    text: &[u8],
    head: Head,
) -> Result<usize, Refusal>
    requires sound { Sound reader.old.macros }
    requires room { offset + length text.now ≤ 4194304 }
    requires within { Within (length text.now) head }
    ensures read { Gives names.new (λ n. (state reader.new, n)) result (head_at at offset (state reader.old) text.now head) }
    ensures sound { OnOk result (Sound reader.new.macros) }
    ensures within { IfOk result (λ n. n ≤ length text.now) }
    ensures some { IfOk result (λ n. 0 < n) }
    ensures known { IfErr result (CanShow (length names.new)) }
    ensures grows { Grows names.old names.new }
{
    match head {
        Head::Comment(n) => Ok(n),
        Head::OpenComment => Err(Refusal::Fault(text_fault(alloc, 12, at))),
        Head::Word(n) => read_word(alloc, names, reader, at, offset, text, n),
        Head::Run(n) => read_run(alloc, reader, names, at, offset, text, n),
    }
}

/// Reads what begins a text that isn't empty, and answers how many bytes it has.
///
/// At a fault, a conditional that is open there and stays open to the text's end is refused in its place, since it stands
/// earlier: the outermost.
#[tactic(auto, unfolding(crate::specs::Reading::turn))]
pub fn read_turn(
    alloc: Global,
    names: &mut Names,
    reader: &mut Reader,
    at: Place,
    offset: u32,
    text: &[u8],
) -> Result<usize, Refusal>
    requires sound { Sound reader.old.macros }
    requires some { 0 < length text.now }
    requires room { offset + length text.now ≤ 4194304 }
    ensures read { Gives names.new (λ n. (state reader.new, n)) result (turn at offset (state reader.old) text.now) }
    ensures sound { OnOk result (Sound reader.new.macros) }
    ensures within { IfOk result (λ n. n ≤ length text.now) }
    ensures some { IfOk result (λ n. 0 < n) }
    ensures known { IfErr result (CanShow (length names.new)) }
    ensures grows { Grows names.old names.new }
{
    let outermost = reader.nest.first().copied();
    let depth = reader.nest.len();
    match read_head(alloc, names, reader, at, offset, text, head_of(text)) {
        Ok(n) => Ok(n),
        Err(Refusal::NoMemory) => Err(Refusal::NoMemory),
        Err(Refusal::Fault(fault)) => {
            Err(Refusal::Fault(earlier(alloc, names, outermost, depth, text, fault)?))
        }
    }
}
