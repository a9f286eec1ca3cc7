// Reading the commands of one line.
ghost use Rattle.std.specs.Prelude.{◌≡◌, ◌<◌, ℕ, List, length, IfOk, IfErr, map};
ghost use Rattle.std.specs.Option.{option_map};
ghost use Rattle.std.specs.List.{All};
ghost use Rattle.ls_text.specs.Texts.{Grows};
ghost use Rattle.ls_text.specs.Readings.{CanShow, Gives, IsNameless};
ghost use Rattle.command_read.specs.Lines.{words};
ghost use Rattle.command_read.specs.Asking.{of_form};
ghost use Rattle.command_read.specs.Values.{count_of, setting_of, shown_of};
ghost use Rattle.command_read.specs.LineCommands.{settings, set_command, run_command, show_command, settle_command, passes_of, lone, command_of, line_command};
ghost use Rattle.command_read.specs.Spoken.{spoken, setting, IsCommandWithin};

use crate::faults::{showing, wordless};
use crate::numbers::{count_of, hex_of};
use crate::scan::{is_identifier, next_word, only_word, parted_at, shown_of};
use crate::{Command, PortValue, PortValues};
use ls_text::{Names, Refusal, TextBytes};
use std::alloc::Global;

// The port and the value of a pair of its form.
#[tactic(auto, unfolding(crate::specs::Values::setting_of))]
fn setting_of(word: &[u8]) -> Option<(&[u8], u128)>
    ensures { option_map (λ r. (r.0.now, r.1)) result ≡ setting_of word.now }
{
    let (port, digits) = parted_at(b'=', word)?;
    let value = hex_of(digits)?;
    if is_identifier(port) {
        Some((port, value))
    } else {
        None
    }
}

fn read_setting(
    alloc: Global,
    names: &mut Names,
    line: u64,
    word: &[u8],
) -> Result<PortValue, Refusal>
    ensures gives { Gives names.new (setting names.new) result (of_form line (shown_of word.now) (setting_of word.now)) }
    ensures within { IfOk result (λ v. v.port.0 < length names.new) }
    ensures named { IfErr result (CanShow (length names.new)) }
    ensures grows { Grows names.old names.new }
{
    match setting_of(word) {
        Some((port, value)) => Ok(PortValue {
            port: names.intern(port)?,
            value,
        }),
        None => Err(showing(alloc, names, 61, line, shown_of(word))),
    }
}

fn read_settings(
    alloc: Global,
    names: &mut Names,
    line: u64,
    pairs: &[u8],
) -> Result<Vec<PortValue>, Refusal>
    ensures gives { Gives names.new (λ vs. map (setting names.new) vs.items) result (settings line (words pairs.now)) }
    ensures within { IfOk result (λ vs. All (λ v. v.port.0 < length names.new) vs.items) }
    ensures named { IfErr result (CanShow (length names.new)) }
    ensures grows { Grows names.old names.new }
{
    let mut values = Vec::new(alloc);
    let mut rest = pairs;
    while let Some((word, after)) = next_word(rest) {
        values.push(read_setting(alloc, names, line, word)?)?;
        rest = after;
    }
    Ok(values)
}

fn read_set(alloc: Global, names: &mut Names, line: u64, pairs: &[u8]) -> Result<Command, Refusal>
    ensures gives { Gives names.new (spoken names.new) result (set_command line (words pairs.now)) }
    ensures within { IfOk result (IsCommandWithin (length names.new)) }
    ensures named { IfErr result (CanShow (length names.new)) }
    ensures grows { Grows names.old names.new }
{
    if next_word(pairs).is_none() {
        return Err(Refusal::Fault(wordless(alloc, 60, line)));
    }
    let values = read_settings(alloc, names, line, pairs)?;
    Ok(Command::Set {
        line,
        values: PortValues::new(values),
    })
}

#[tactic(auto, unfolding(crate::specs::LineCommands::run_command))]
fn read_run(alloc: Global, names: &mut Names, line: u64, rest: &[u8]) -> Result<Command, Refusal>
    ensures gives { Gives names.new (spoken names.new) result (run_command line (words rest.now)) }
    ensures within { IfOk result (IsCommandWithin (length names.new)) }
    ensures named { IfErr result (CanShow (length names.new)) }
    ensures grows { Grows names.old names.new }
{
    let Some(word) = only_word(rest) else {
        return Err(Refusal::Fault(wordless(alloc, 60, line)));
    };
    match count_of(word) {
        Some(n) => Ok(Command::Run { line, n }),
        None => Err(showing(alloc, names, 61, line, word)),
    }
}

fn read_show(alloc: Global, line: u64, rest: &[u8]) -> Result<Command, Refusal>
    ensures gives { (names : List (List ℕ)) → Gives names (spoken names) result (show_command line (words rest.now)) }
    ensures nameless { IfErr result IsNameless }
    ensures within { (count : ℕ) → IfOk result (IsCommandWithin count) }
{
    if next_word(rest).is_none() {
        return Ok(Command::Show {
            line,
            prefix: TextBytes::new(Vec::new(alloc)),
        });
    }
    let Some(word) = only_word(rest) else {
        return Err(Refusal::Fault(wordless(alloc, 60, line)));
    };
    Ok(Command::Show {
        line,
        prefix: TextBytes::new(Vec::from_slice(alloc, word)?),
    })
}

// A number of passes, from 1 to 1024.
fn passes_of(word: &[u8]) -> Option<u32>
    ensures { result ≡ passes_of (count_of word.now) }
{
    match count_of(word) {
        Some(n) if 1 <= n && n <= 1024 => Some(n as u32),
        _ => None,
    }
}

fn read_settle(alloc: Global, names: &mut Names, line: u64, rest: &[u8]) -> Result<Command, Refusal>
    ensures gives { Gives names.new (spoken names.new) result (settle_command line (words rest.now)) }
    ensures within { IfOk result (IsCommandWithin (length names.new)) }
    ensures named { IfErr result (CanShow (length names.new)) }
    ensures grows { Grows names.old names.new }
{
    if next_word(rest).is_none() {
        return Ok(Command::Settle { line, passes: None });
    }
    let Some(word) = only_word(rest) else {
        return Err(Refusal::Fault(wordless(alloc, 60, line)));
    };
    match passes_of(word) {
        Some(n) => Ok(Command::Settle {
            line,
            passes: Some(n),
        }),
        None => Err(showing(alloc, names, 61, line, word)),
    }
}

// A command that has no further words.
fn lone(alloc: Global, line: u64, command: Command, rest: &[u8]) -> Result<Command, Refusal>
    ensures gives { (names : List (List ℕ)) → Gives names (spoken names) result (lone line (spoken names command) (words rest.now)) }
    ensures nameless { IfErr result IsNameless }
    ensures same { IfOk result (λ c. c ≡ command) }
{
    match next_word(rest) {
        Some(_) => Err(Refusal::Fault(wordless(alloc, 60, line))),
        None => Ok(command),
    }
}

// A command that begins with this word.
fn read_command(
    alloc: Global,
    names: &mut Names,
    line: u64,
    word: &[u8],
    rest: &[u8],
) -> Result<Command, Refusal>
    ensures gives { Gives names.new (spoken names.new) result (command_of line word.now (words rest.now)) }
    ensures within { IfOk result (IsCommandWithin (length names.new)) }
    ensures named { IfErr result (CanShow (length names.new)) }
    ensures grows { Grows names.old names.new }
{
    if word == b"set".as_slice() {
        read_set(alloc, names, line, rest)
    } else if word == b"run".as_slice() {
        read_run(alloc, names, line, rest)
    } else if word == b"show".as_slice() {
        read_show(alloc, line, rest)
    } else if word == b"settle".as_slice() {
        read_settle(alloc, names, line, rest)
    } else if word == b"status".as_slice() {
        lone(alloc, line, Command::Status { line }, rest)
    } else if word == b"quit".as_slice() {
        lone(alloc, line, Command::Quit { line }, rest)
    } else if word == b"edit".as_slice() {
        Err(Refusal::Fault(wordless(alloc, 60, line)))
    } else {
        Err(showing(alloc, names, 60, line, word))
    }
}

/// The command of a line outside of blocks that isn't skipped and no lone `edit`, or 60 or 61.
#[tactic(auto, unfolding(crate::specs::LineCommands::line_command))]
pub fn read_line(
    alloc: Global,
    names: &mut Names,
    number: u64,
    line: &[u8],
) -> Result<Command, Refusal>
    ensures gives { Gives names.new (spoken names.new) result (line_command number (words line.now)) }
    ensures within { IfOk result (IsCommandWithin (length names.new)) }
    ensures named { IfErr result (CanShow (length names.new)) }
    ensures grows { Grows names.old names.new }
{
    match next_word(line) {
        Some((word, rest)) => read_command(alloc, names, number, word, rest),
        None => Err(Refusal::Fault(wordless(alloc, 60, number))),
    }
}
