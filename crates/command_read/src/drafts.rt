// Reading a block, line by line.
ghost use Rattle.std.specs.Prelude.{◌≡◌, ◌<◌, ◌+◌, ◌^◌, ◌≤◌, length, IfOk, IfErr, OnOk, ℕ, List, None, true};
ghost use Rattle.std.specs.Option.{option_map};
ghost use Rattle.ls_text.specs.Texts.{Grows, HasEachOnce, text_at};
ghost use Rattle.ls_text.specs.Readings.{CanShow, Gives};
ghost use Rattle.command_read.specs.Lines.{script_lines};
ghost use Rattle.command_read.specs.Blocks.{with_entry, with_text, more_text, reading_behind, block_command, begun_at};
ghost use Rattle.command_read.specs.Spoken.{drafted, edited, entry, open_file, reading, spoken, IsCommandWithin, IsDraftWithin, IsEditWithin, IsEntryWithin};

use crate::block_line::BlockLine;
use crate::block_lines::read_block_line;
use crate::draft::Draft;
use crate::faults::naming;
use crate::lines::next_line;
use crate::named_files::NamedFiles;
use crate::open_text::OpenText;
use crate::{Command, Edit, FileLine, FileLines, LoadLine, LoadLines, OpLine, OpLines};
use ls_text::{NameId, Names, NoMemory, Refusal, SourceFile, TextBytes};
use std::alloc::Global;

/// The most bytes that a file has.
const MAX_TEXT: usize = 4_194_304;

// A block of which only the line of `edit` is read.
fn begun(alloc: Global, line: u64) -> Draft
    ensures reading { (names : List (List ℕ)) → reading names result ≡ begun_at line }
    ensures within { (count : ℕ) → IsDraftWithin count result }
{
    Draft {
        line,
        top: None,
        clock: None,
        files: NamedFiles::new(alloc),
        ops: Vec::new(alloc),
        text: None,
    }
}

// What a line says outside of texts, added to the block.
fn enter(alloc: Global, draft: &mut Draft, line: u64, said: BlockLine) -> Result<(), Refusal>
    requires { draft.old.text ≡ None }
    ensures gives { (names : List (List ℕ)) → HasEachOnce names → IsDraftWithin (length names) draft.old → IsEntryWithin (length names) said
        → Gives names (λ _. reading names draft.new) result (with_entry (drafted names draft.old) line (entry names said)) }
    ensures within { (count : ℕ) → IsDraftWithin count draft.old → IsEntryWithin count said → OnOk result (IsDraftWithin count draft.new) }
    ensures named { (count : ℕ) → IsEntryWithin count said → IfErr result (CanShow count) }
{
    match said {
        BlockLine::Skipped => Ok(()),
        BlockLine::Top(name) => {
            draft.top = Some(name);
            Ok(())
        }
        BlockLine::Clock(name) => {
            draft.clock = Some(name);
            Ok(())
        }
        BlockLine::File(name) => {
            if draft.files.has(name) {
                return Err(naming(alloc, 61, line, name));
            }
            draft.text = Some(OpenText {
                line,
                name,
                text: Vec::new(alloc),
            });
            Ok(())
        }
        BlockLine::Load(name) => {
            if draft.files.has(name) {
                return Err(naming(alloc, 61, line, name));
            }
            draft.files.load(LoadLine { line, name })?;
            Ok(())
        }
        BlockLine::Op(op) => {
            draft.ops.push(OpLine { line, op })?;
            Ok(())
        }
    }
}

// The text with one line more.
fn more_text(begun: OpenText, line: &[u8]) -> Result<OpenText, NoMemory>
    ensures text { IfOk result (λ o. (names : List (List ℕ)) → open_file names o ≡ more_text (open_file names begun) line.now) }
    ensures same { IfOk result (λ o. o.name ≡ begun.name) }
{
    let mut text = begun;
    text.text.extend_from_slice(line)?;
    text.text.push(b'\n')?;
    Ok(text)
}

// Adds a file whose text is whole, unless it has more than 4,194,304 bytes.
fn close(alloc: Global, draft: &mut Draft, begun: OpenText) -> Result<(), Refusal>
    requires { draft.old.text ≡ None }
    ensures gives { (names : List (List ℕ))
        → Gives names (λ _. reading names draft.new) result (with_text (drafted names draft.old) (open_file names begun)) }
    ensures within { (count : ℕ) → IsDraftWithin count draft.old → begun.name.0 < count → OnOk result (IsDraftWithin count draft.new) }
    ensures named { (count : ℕ) → begun.name.0 < count → IfErr result (CanShow count) }
{
    if begun.text.len() > MAX_TEXT {
        return Err(naming(alloc, 10, begun.line, begun.name));
    }
    draft.files.give(FileLine {
        line: begun.line,
        file: SourceFile {
            name: begun.name,
            text: TextBytes::new(begun.text),
        },
    })?;
    Ok(())
}

// The block behind one more line.
fn take(
    alloc: Global,
    names: &mut Names,
    draft: &mut Draft,
    number: u64,
    line: &[u8],
) -> Result<(), Refusal>
    requires { IsDraftWithin (length names.old) draft.old }
    ensures gives { Gives names.new (λ _. reading names.new draft.new) result
        (reading_behind (drafted names.old draft.old) (option_map (open_file names.old) draft.old.text) number line.now) }
    ensures within { OnOk result (IsDraftWithin (length names.new) draft.new) }
    ensures named { IfErr result (CanShow (length names.new)) }
    ensures grows { Grows names.old names.new }
{
    match draft.text.take() {
        None => {
            let said = read_block_line(alloc, names, number, line)?;
            // A table says of its texts that no two are equal.
            let _text = names.text(NameId(0));
            enter(alloc, draft, number, said)
        }
        Some(text) => {
            if line == b".".as_slice() {
                close(alloc, draft, text)
            } else {
                draft.text = Some(more_text(text, line)?);
                Ok(())
            }
        }
    }
}

fn finished(draft: Draft) -> Edit
    ensures block { (names : List (List ℕ)) → edited names result ≡ drafted names draft }
    ensures within { (count : ℕ) → IsDraftWithin count draft → IsEditWithin count result }
{
    let Draft {
        line,
        top,
        clock,
        files,
        ops,
        text: _,
    } = draft;
    let (given, loaded) = files.into_lists();
    Edit {
        line,
        top,
        clock,
        files: FileLines::new(given),
        loads: LoadLines::new(loaded),
        ops: OpLines::new(ops),
    }
}

/// The block whose `edit` has that line, of the lines between that and its `end`; or the first fault among them.
#[tactic(auto, unfolding(crate::specs::Blocks::block_command))]
pub fn read_block(
    alloc: Global,
    names: &mut Names,
    first: u64,
    body: &[u8],
) -> Result<Command, Refusal>
    requires { first + length body.now + 1 < 2 ^ 64 }
    ensures gives { Gives names.new (spoken names.new) result (block_command first (script_lines true body.now)) }
    ensures within { IfOk result (IsCommandWithin (length names.new)) }
    ensures named { IfErr result (CanShow (length names.new)) }
    ensures grows { Grows names.old names.new }
{
    let mut draft = begun(alloc, first);
    let mut rest = body;
    let mut number = first + 1;
    while let Some((line, after)) = next_line(rest) {
        take(alloc, names, &mut draft, number, line)?;
        number += 1;
        rest = after;
    }
    Ok(Command::Edit(finished(draft)))
}
