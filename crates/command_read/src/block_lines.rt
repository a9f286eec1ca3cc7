// Reading the lines of a block.
ghost use Rattle.std.specs.Prelude.{◌≡◌, ◌<◌, length, IfOk, IfErr, ℕ, List};
ghost use Rattle.std.specs.Option.{option_map};
ghost use Rattle.ls_text.specs.Texts.{Grows, text_at};
ghost use Rattle.ls_text.specs.TextViews.{text_of};
ghost use Rattle.ls_text.specs.Readings.{CanShow, Gives};
ghost use Rattle.reg_ops.specs.Operations.{operation, HasNames, Renames, Creates, Deletes};
ghost use Rattle.command_read.specs.Lines.{words};
ghost use Rattle.command_read.specs.Values.{created_of};
ghost use Rattle.command_read.specs.Blocks.{just_file, just_name, renamed, rename_entry, create_entry, delete_entry, entry_of, block_entry};
ghost use Rattle.command_read.specs.Spoken.{entry, IsEntryWithin};

use crate::block_line::BlockLine;
use crate::faults::{showing, wordless};
use crate::numbers::hex_of;
use crate::scan::{is_identifier, next_word, only_word, parted_at, register_of, two_words};
use ls_text::{NameId, Names, NoMemory, Refusal, byte_at, is_file_name};
use reg_ops::RegOp;
use std::alloc::Global;

// NAME.
fn read_name(alloc: Global, names: &mut Names, line: u64, rest: &[u8]) -> Result<NameId, Refusal>
    ensures gives { Gives names.new (text_of names.new) result (just_name line (words rest.now)) }
    ensures within { IfOk result (λ id. id.0 < length names.new) }
    ensures named { IfErr result (CanShow (length names.new)) }
    ensures grows { Grows names.old names.new }
{
    let Some(word) = only_word(rest) else {
        return Err(Refusal::Fault(wordless(alloc, 60, line)));
    };
    if is_identifier(word) {
        Ok(names.intern(word)?)
    } else {
        Err(showing(alloc, names, 61, line, word))
    }
}

// FILE.
fn read_file(alloc: Global, names: &mut Names, line: u64, rest: &[u8]) -> Result<NameId, Refusal>
    ensures gives { Gives names.new (text_of names.new) result (just_file line (words rest.now)) }
    ensures within { IfOk result (λ id. id.0 < length names.new) }
    ensures named { IfErr result (CanShow (length names.new)) }
    ensures grows { Grows names.old names.new }
{
    let Some(word) = only_word(rest) else {
        return Err(Refusal::Fault(wordless(alloc, 60, line)));
    };
    if is_file_name(word) {
        Ok(names.intern(word)?)
    } else {
        Err(showing(alloc, names, 61, line, word))
    }
}

// A register that goes on under another name.
fn rename(names: &mut Names, owner: &[u8], from: &[u8], to: &[u8]) -> Result<RegOp, NoMemory>
    ensures op { IfOk result (λ op. operation names.new op ≡ Renames owner.now from.now to.now) }
    ensures within { IfOk result (HasNames (length names.new)) }
    ensures grows { Grows names.old names.new }
{
    let in_module = names.intern(owner)?;
    let from = names.intern(from)?;
    let to = names.intern(to)?;
    Ok(RegOp::Rename {
        in_module,
        from,
        to,
    })
}

// M.OLD M.NEW.
fn read_registers(
    alloc: Global,
    names: &mut Names,
    line: u64,
    old: &[u8],
    new: &[u8],
) -> Result<RegOp, Refusal>
    ensures gives { Gives names.new (operation names.new) result (renamed line old.now new.now) }
    ensures within { IfOk result (HasNames (length names.new)) }
    ensures named { IfErr result (CanShow (length names.new)) }
    ensures grows { Grows names.old names.new }
{
    let Some((owner, from)) = register_of(old) else {
        return Err(showing(alloc, names, 61, line, old));
    };
    let Some((other, to)) = register_of(new) else {
        return Err(showing(alloc, names, 61, line, new));
    };
    if owner == other {
        Ok(rename(names, owner, from, to)?)
    } else {
        Err(showing(alloc, names, 61, line, new))
    }
}

#[tactic(auto, unfolding(crate::specs::Blocks::rename_entry))]
fn read_rename(alloc: Global, names: &mut Names, line: u64, rest: &[u8]) -> Result<RegOp, Refusal>
    ensures gives { Gives names.new (operation names.new) result (rename_entry line (words rest.now)) }
    ensures within { IfOk result (HasNames (length names.new)) }
    ensures named { IfErr result (CanShow (length names.new)) }
    ensures grows { Grows names.old names.new }
{
    match two_words(rest) {
        Some((old, new)) => read_registers(alloc, names, line, old, new),
        None => Err(Refusal::Fault(wordless(alloc, 60, line))),
    }
}

// The module, the register and the value of M.R=HEX.
#[tactic(auto, unfolding(crate::specs::Values::created_of))]
fn created_of(word: &[u8]) -> Option<(&[u8], &[u8], u128)>
    ensures { option_map (λ r. (r.0.now, r.1.now, r.2)) result ≡ created_of word.now }
{
    let (front, digits) = parted_at(b'=', word)?;
    let (owner, register) = register_of(front)?;
    let value = hex_of(digits)?;
    Some((owner, register, value))
}

// A register that begins at a value.
fn create(names: &mut Names, owner: &[u8], register: &[u8], value: u128) -> Result<RegOp, NoMemory>
    ensures op { IfOk result (λ op. operation names.new op ≡ Creates owner.now register.now value) }
    ensures within { IfOk result (HasNames (length names.new)) }
    ensures grows { Grows names.old names.new }
{
    let in_module = names.intern(owner)?;
    let reg = names.intern(register)?;
    Ok(RegOp::Create {
        in_module,
        reg,
        value,
    })
}

#[tactic(auto, unfolding(crate::specs::Blocks::create_entry))]
fn read_create(alloc: Global, names: &mut Names, line: u64, rest: &[u8]) -> Result<RegOp, Refusal>
    ensures gives { Gives names.new (operation names.new) result (create_entry line (words rest.now)) }
    ensures within { IfOk result (HasNames (length names.new)) }
    ensures named { IfErr result (CanShow (length names.new)) }
    ensures grows { Grows names.old names.new }
{
    let Some(word) = only_word(rest) else {
        return Err(Refusal::Fault(wordless(alloc, 60, line)));
    };
    match created_of(word) {
        Some((owner, register, value)) => Ok(create(names, owner, register, value)?),
        None => Err(showing(alloc, names, 61, line, word)),
    }
}

// A register that is dropped.
fn delete(names: &mut Names, owner: &[u8], register: &[u8]) -> Result<RegOp, NoMemory>
    ensures op { IfOk result (λ op. operation names.new op ≡ Deletes owner.now register.now) }
    ensures within { IfOk result (HasNames (length names.new)) }
    ensures grows { Grows names.old names.new }
{
    let in_module = names.intern(owner)?;
    let reg = names.intern(register)?;
    Ok(RegOp::Delete { in_module, reg })
}

#[tactic(auto, unfolding(crate::specs::Blocks::delete_entry))]
fn read_delete(alloc: Global, names: &mut Names, line: u64, rest: &[u8]) -> Result<RegOp, Refusal>
    ensures gives { Gives names.new (operation names.new) result (delete_entry line (words rest.now)) }
    ensures within { IfOk result (HasNames (length names.new)) }
    ensures named { IfErr result (CanShow (length names.new)) }
    ensures grows { Grows names.old names.new }
{
    let Some(word) = only_word(rest) else {
        return Err(Refusal::Fault(wordless(alloc, 60, line)));
    };
    match register_of(word) {
        Some((owner, register)) => Ok(delete(names, owner, register)?),
        None => Err(showing(alloc, names, 61, line, word)),
    }
}

// A line of a block that begins with this word.
fn read_entry(
    alloc: Global,
    names: &mut Names,
    line: u64,
    word: &[u8],
    rest: &[u8],
) -> Result<BlockLine, Refusal>
    ensures gives { Gives names.new (entry names.new) result (entry_of line word.now (words rest.now)) }
    ensures within { IfOk result (IsEntryWithin (length names.new)) }
    ensures named { IfErr result (CanShow (length names.new)) }
    ensures grows { Grows names.old names.new }
{
    if byte_at(word, 0) == b'#' {
        Ok(BlockLine::Skipped)
    } else if word == b"top".as_slice() {
        Ok(BlockLine::Top(read_name(alloc, names, line, rest)?))
    } else if word == b"clock".as_slice() {
        Ok(BlockLine::Clock(read_name(alloc, names, line, rest)?))
    } else if word == b"file".as_slice() {
        Ok(BlockLine::File(read_file(alloc, names, line, rest)?))
    } else if word == b"load".as_slice() {
        Ok(BlockLine::Load(read_file(alloc, names, line, rest)?))
    } else if word == b"rename".as_slice() {
        Ok(BlockLine::Op(read_rename(alloc, names, line, rest)?))
    } else if word == b"create".as_slice() {
        Ok(BlockLine::Op(read_create(alloc, names, line, rest)?))
    } else if word == b"delete".as_slice() {
        Ok(BlockLine::Op(read_delete(alloc, names, line, rest)?))
    } else if word == b"end".as_slice() {
        Err(Refusal::Fault(wordless(alloc, 60, line)))
    } else {
        Err(showing(alloc, names, 60, line, word))
    }
}

/// What a line of a block says outside of texts, where it isn't a lone `end`; or 60 or 61.
#[tactic(auto, unfolding(crate::specs::Blocks::block_entry))]
pub fn read_block_line(
    alloc: Global,
    names: &mut Names,
    number: u64,
    line: &[u8],
) -> Result<BlockLine, Refusal>
    ensures gives { Gives names.new (entry names.new) result (block_entry number (words line.now)) }
    ensures within { IfOk result (IsEntryWithin (length names.new)) }
    ensures named { IfErr result (CanShow (length names.new)) }
    ensures grows { Grows names.old names.new }
{
    match next_word(line) {
        Some((word, rest)) => read_entry(alloc, names, number, word, rest),
        None => Ok(BlockLine::Skipped),
    }
}
