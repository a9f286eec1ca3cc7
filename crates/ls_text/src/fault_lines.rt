// The line that shows a fault.
ghost use Rattle.std.specs.Prelude.{◌≡◌, ◌<◌, ◌≤◌, ◌++◌, length, decimal, IfOk, OnErr, OnOk, All, slice_get};
ghost use Rattle.ls_text.specs.Faults.{code_name, file_text, line_text, place_text, names_text, fault_text};

use crate::{At, Fault, NameId, Names, NoMemory, SourceFile};
use std::alloc::Global;

/// Adds a number in decimal, without leading zeros.
pub fn push_decimal(line: &mut Vec<u8>, n: u64) -> Result<(), NoMemory>
    ensures value { OnOk result (line.new.items ≡ line.old.items ++ decimal n) }
    ensures err { OnErr result (line.new.items ≡ line.old.items) }
{
    let mut buffer = itoa::Buffer::new();
    line.extend_from_slice(buffer.format(n).as_bytes())?;
    Ok(())
}

// The name of a code of the fault table from 50 on: of the operations of an edit, and of commands.
fn command_name(code: u8) -> &'static [u8]
    requires { 50 ≤ code }
    ensures { result.now ≡ code_name code }
{
    match code {
        50 => b"OldMissing",
        51 => b"RenameNew",
        52 => b"TransformTwice",
        53 => b"CreateMissing",
        54 => b"DeleteKept",
        55 => b"CreateWide",
        60 => b"BadCommand",
        61 => b"BadValue",
        62 => b"NoDesign",
        63 => b"UnknownPort",
        64 => b"RunRange",
        65 => b"CycleLimit",
        66 => b"Unfinished",
        67 => b"ShelfFault",
        68 => b"HistoryFull",
        69 => b"StimulusFull",
        _ => b"-",
    }
}

// The name of a code of the fault table.
fn name_of(code: u8) -> &'static [u8]
    ensures { result.now ≡ code_name code }
{
    if code >= 50 {
        return command_name(code);
    }
    match code {
        10 => b"TextTooLong",
        12 => b"BadDirective",
        13 => b"BadToken",
        14 => b"BadNumber",
        15 => b"Syntax",
        16 => b"NestedTooDeep",
        20 => b"NoModule",
        21 => b"TwoModules",
        22 => b"NoTop",
        23 => b"RecursiveInstance",
        24 => b"BadParam",
        25 => b"NotConstant",
        26 => b"BadRange",
        27 => b"NoPort",
        28 => b"PortTwice",
        29 => b"UnknownName",
        30 => b"NameTwice",
        31 => b"TooWide",
        32 => b"BadSelect",
        33 => b"BadTarget",
        34 => b"MultipleDrivers",
        35 => b"Latch",
        36 => b"ReadBeforeWrite",
        37 => b"ClockMisuse",
        38 => b"NotInProfile",
        39 => b"CombLoop",
        40 => b"TooMany",
        41 => b"GenLimit",
        _ => b"-",
    }
}

fn push_line(line: &mut Vec<u8>, number: u64) -> Result<(), NoMemory>
    ensures { OnOk result (line.new.items ≡ line.old.items ++ line_text number) }
{
    line.push(b'@')?;
    push_decimal(line, number)
}

fn push_file_name(
    line: &mut Vec<u8>,
    names: &Names,
    files: &[SourceFile],
    number: u16,
) -> Result<(), NoMemory>
    requires { All (λ f. f.name.0 < length names.now) files.now }
    ensures { OnOk result (line.new.items ≡ line.old.items ++ file_text names.now (slice_get files.now number)) }
{
    if let Some(file) = files.get(number as usize) {
        line.extend_from_slice(names.text(file.name))?;
    }
    Ok(())
}

fn push_place(
    line: &mut Vec<u8>,
    names: &Names,
    files: &[SourceFile],
    edit_line: u64,
    at: At,
) -> Result<(), NoMemory>
    requires { All (λ f. f.name.0 < length names.now) files.now }
    ensures { OnOk result (line.new.items ≡ line.old.items ++ place_text names.now files.now edit_line at) }
{
    match at {
        At::Text(place) => {
            push_file_name(line, names, files, place.file)?;
            line.push(b':')?;
            push_decimal(line, u64::from(place.line))?;
            line.push(b':')?;
            push_decimal(line, u64::from(place.col))
        }
        At::Line(number) => push_line(line, number),
        At::Edit => push_line(line, edit_line),
    }
}

fn push_names(line: &mut Vec<u8>, names: &Names, ids: &[NameId]) -> Result<(), NoMemory>
    requires { All (λ id. id.0 < length names.now) ids.now }
    ensures { OnOk result (line.new.items ≡ line.old.items ++ names_text names.now ids.now) }
{
    if ids.is_empty() {
        line.extend_from_slice(b" -")?;
        return Ok(());
    }
    for id in ids {
        line.push(b' ')?;
        line.extend_from_slice(names.text(*id))?;
    }
    Ok(())
}

/// The line that shows a fault: `refused CODE NAME PLACE NAMES`, with a newline.
///
/// A place in a text is shown as `file:line:col`, a script line as `@L`; `edit_line` is the line of the block's `edit`.
/// Where the fault has no names, `-` stands for them.
pub fn fault_line(
    alloc: Global,
    names: &Names,
    files: &[SourceFile],
    edit_line: u64,
    fault: &Fault,
) -> Result<Vec<u8>, NoMemory>
    requires files { All (λ f. f.name.0 < length names.now) files.now }
    requires names { All (λ id. id.0 < length names.now) fault.now.names }
    ensures { IfOk result (λ line. line.items ≡ fault_text names.now files.now edit_line
        fault.now.code fault.now.at fault.now.names) }
{
    let mut line = Vec::from_slice(alloc, b"refused ")?;
    push_decimal(&mut line, u64::from(fault.code))?;
    line.push(b' ')?;
    line.extend_from_slice(name_of(fault.code))?;
    line.push(b' ')?;
    push_place(&mut line, names, files, edit_line, fault.at)?;
    push_names(&mut line, names, fault.names.ids())?;
    line.push(b'\n')?;
    Ok(line)
}
