// A reply to its lines.
ghost use Rattle.std.specs.Prelude.{◌≡◌, ◌++◌, IfOk, OnOk};
ghost use Rattle.std.specs.List.{flat_map};
ghost use Rattle.wave_report.specs.Replies.{
  counted,
  edit_text,
  run_text,
  show_text,
  estimate_text,
  settled_text,
  unsettled_text,
  unit_text,
  status_text,
  reply_text,
};

use crate::digits::push_digest;
use crate::reply_kind::ReplyKind;
use crate::unit_line::UnitLine;
use ls_text::{NoMemory, push_decimal};
use std::alloc::Global;

// Adds a word with a number behind it.
fn push_counted(text: &mut Vec<u8>, word: &[u8], n: u64) -> Result<(), NoMemory>
    ensures { OnOk result (text.new.items ≡ text.old.items ++ counted word.now n) }
{
    text.extend_from_slice(word)?;
    push_decimal(text, n)
}

fn push_edit(
    text: &mut Vec<u8>,
    version: u64,
    built: u32,
    kept: u32,
    from: u64,
) -> Result<(), NoMemory>
    ensures { OnOk result (text.new.items ≡ text.old.items ++ edit_text version built kept from) }
{
    push_counted(text, b"ok edit v=", version)?;
    push_counted(text, b" built=", u64::from(built))?;
    push_counted(text, b" kept=", u64::from(kept))?;
    push_counted(text, b" from=", from)?;
    text.push(b'\n')?;
    Ok(())
}

fn push_run(text: &mut Vec<u8>, cycle: u64) -> Result<(), NoMemory>
    ensures { OnOk result (text.new.items ≡ text.old.items ++ run_text cycle) }
{
    push_counted(text, b"ok run cycle=", cycle)?;
    text.push(b'\n')?;
    Ok(())
}

fn push_show(text: &mut Vec<u8>, cycle: u64, version: u64) -> Result<(), NoMemory>
    ensures { OnOk result (text.new.items ≡ text.old.items ++ show_text cycle version) }
{
    push_counted(text, b"show cycle=", cycle)?;
    push_counted(text, b" settled v=", version)?;
    text.push(b'\n')?;
    Ok(())
}

fn push_estimate(
    text: &mut Vec<u8>,
    cycle: u64,
    version: u64,
    settled_to: u64,
) -> Result<(), NoMemory>
    ensures { OnOk result (text.new.items ≡ text.old.items ++ estimate_text cycle version settled_to) }
{
    push_counted(text, b"show cycle=", cycle)?;
    push_counted(text, b" estimate v=", version)?;
    push_counted(text, b" settled_to=", settled_to)?;
    text.push(b'\n')?;
    Ok(())
}

fn push_settled(text: &mut Vec<u8>, cycle: u64, version: u64) -> Result<(), NoMemory>
    ensures { OnOk result (text.new.items ≡ text.old.items ++ settled_text cycle version) }
{
    push_counted(text, b"settled cycle=", cycle)?;
    push_counted(text, b" v=", version)?;
    text.push(b'\n')?;
    Ok(())
}

fn push_unsettled(text: &mut Vec<u8>, settled_to: u64) -> Result<(), NoMemory>
    ensures { OnOk result (text.new.items ≡ text.old.items ++ unsettled_text settled_to) }
{
    push_counted(text, b"unsettled settled_to=", settled_to)?;
    text.push(b'\n')?;
    Ok(())
}

fn push_unit(text: &mut Vec<u8>, unit: &UnitLine) -> Result<(), NoMemory>
    ensures { OnOk result (text.new.items ≡ text.old.items ++ unit_text unit.now) }
{
    text.extend_from_slice(b"unit ")?;
    text.extend_from_slice(unit.module.bytes())?;
    text.push(b' ')?;
    push_digest(text, &unit.digest)?;
    text.push(b'\n')?;
    Ok(())
}

fn push_units(text: &mut Vec<u8>, units: &[UnitLine]) -> Result<(), NoMemory>
    ensures { OnOk result (text.new.items ≡ text.old.items ++ flat_map unit_text units.now) }
{
    for unit in units {
        push_unit(text, unit)?;
    }
    Ok(())
}

fn push_status(
    text: &mut Vec<u8>,
    version: u64,
    cycle: u64,
    marks: u32,
    units: &[UnitLine],
) -> Result<(), NoMemory>
    ensures { OnOk result (text.new.items ≡ text.old.items ++ status_text version cycle marks units.now) }
{
    push_counted(text, b"status v=", version)?;
    push_counted(text, b" cycle=", cycle)?;
    push_counted(text, b" marks=", u64::from(marks))?;
    push_counted(text, b" units=", units.len() as u64)?;
    text.push(b'\n')?;
    push_units(text, units)
}

// Adds the lines of a reply.
fn push_reply(text: &mut Vec<u8>, kind: &ReplyKind) -> Result<(), NoMemory>
    ensures { OnOk result (text.new.items ≡ text.old.items ++ reply_text kind.now) }
{
    match kind {
        ReplyKind::Edit {
            version,
            built,
            kept,
            from,
        } => push_edit(text, *version, *built, *kept, *from),
        ReplyKind::Set => Ok(text.extend_from_slice(b"ok set\n")?),
        ReplyKind::Quit => Ok(text.extend_from_slice(b"ok quit\n")?),
        ReplyKind::Run { cycle } => push_run(text, *cycle),
        ReplyKind::ShowSettled { cycle, version } => push_show(text, *cycle, *version),
        ReplyKind::ShowEstimate {
            cycle,
            version,
            settled_to,
        } => push_estimate(text, *cycle, *version, *settled_to),
        ReplyKind::Settled { cycle, version } => push_settled(text, *cycle, *version),
        ReplyKind::Unsettled { settled_to } => push_unsettled(text, *settled_to),
        ReplyKind::Status {
            version,
            cycle,
            marks,
            units,
        } => push_status(text, *version, *cycle, *marks, units.lines()),
    }
}

/// The lines of a reply, each with a newline. Want of memory is `NoMemory`, and nothing else is refused.
pub fn reply_line(alloc: Global, kind: &ReplyKind) -> Result<Vec<u8>, NoMemory>
    ensures { IfOk result (λ text. text.items ≡ reply_text kind.now) }
{
    let mut text = Vec::new(alloc);
    push_reply(&mut text, kind)?;
    Ok(text)
}
