// Defining macros.
ghost use Rattle.std.specs.Prelude.{◌≡◌, ◌≤◌, ◌+◌, ◌++◌, length, drop, IfOk, IfErr, OnOk, Some, None};
ghost use Rattle.ls_text.specs.Texts.{Grows};
ghost use Rattle.ls_text.specs.Readings.{Gives, CanShow};
ghost use Rattle.verilog_pre.specs.Bodies.{body_parts, body_len};
ghost use Rattle.verilog_pre.specs.Reading.{define_name, undef_name, with_body, named};
ghost use Rattle.verilog_pre.specs.States.{state};
ghost use Rattle.verilog_pre.specs.Directives.{name_at};
ghost use Rattle.verilog_pre.specs.Tables.{table_of, with_macro, Sound};
ghost use Rattle.verilog_pre.specs.Views.{parts_of};

use crate::body::read_body;
use crate::directives::{directive_of, is_use, name_at};
use crate::expand::bad_directive;
use crate::macro_body::Macro;
use crate::macros::Macros;
use crate::reader::Reader;
use crate::table::set;
use ls_text::{Names, NoMemory, Place, Refusal, behind, byte_at};
use std::alloc::Global;

// Adds a macro, and answers how many bytes its body has.
#[tactic(auto, using(crate::proofs::Sounds::sound_more))]
fn add_macro(
    macros: &mut Macros,
    name: &[u8],
    file: u16,
    offset: u32,
    text: &[u8],
) -> Result<usize, NoMemory>
    requires sound { Sound macros.old }
    requires room { offset + length text.now ≤ 4194304 }
    ensures length { IfOk result (λ n. n ≡ body_len text.now) }
    ensures within { IfOk result (λ n. n ≤ length text.now) }
    ensures table { OnOk result (table_of macros.new ≡ with_macro name.now (Some (record {
      number = length macros.old.places.items;
      first = length (parts_of macros.old);
      last = length (parts_of macros.old ++ body_parts file offset text.now);
    })) (table_of macros.old)) }
    ensures parts { OnOk result (parts_of macros.new ≡ parts_of macros.old ++ body_parts file offset text.now) }
    ensures count { OnOk result (length macros.new.places.items ≡ length macros.old.places.items + 1) }
    ensures sound { OnOk result (Sound macros.new) }
{
    let first = macros.parts.len();
    let number = macros.places.len();
    let n = read_body(macros, file, offset, text)?;
    let last = macros.parts.len();
    macros.places.push(0)?;
    let body = Macro {
        number,
        first,
        last,
    };
    set(macros, name, Some(body))?;
    Ok(n)
}

// Carries out a `define` whose name is read: the body is the rest of the line.
#[tactic(auto, unfolding(crate::specs::Reading::define_name))]
fn define_name(
    alloc: Global,
    names: &mut Names,
    reader: &mut Reader,
    at: Place,
    offset: u32,
    word: &[u8],
    rest: &[u8],
    found: (&[u8], usize),
) -> Result<usize, Refusal>
    requires sound { Sound reader.old.macros }
    requires room { offset + length rest.now ≤ 4194304 }
    requires within { found.1 ≤ length rest.now }
    ensures read { Gives names.new (λ n. (state reader.new, n)) result
        (define_name at offset word.now (state reader.old) rest.now (found.entry.0.now, found.entry.1)) }
    ensures sound { OnOk result (Sound reader.new.macros) }
    ensures within { IfOk result (λ n. n ≤ length rest.now) }
    ensures known { IfErr result (CanShow (length names.new)) }
    ensures grows { Grows names.old names.new }
{
    let (name, n) = found;
    let after = behind(rest, n);
    if byte_at(after, 0) == b'(' || !is_use(directive_of(name)) {
        return Err(Refusal::Fault(bad_directive(alloc, names, at, word)?));
    }
    let body = add_macro(&mut reader.macros, name, at.file, offset + n as u32, after)?;
    Ok(n + body)
}

/// Carries out a `define`.
pub fn define(
    alloc: Global,
    names: &mut Names,
    reader: &mut Reader,
    at: Place,
    offset: u32,
    word: &[u8],
    rest: &[u8],
) -> Result<usize, Refusal>
    requires sound { Sound reader.old.macros }
    requires room { offset + length rest.now ≤ 4194304 }
    ensures read { Gives names.new (λ n. (state reader.new, n)) result
        (named at word.now (define_name at offset word.now (state reader.old) rest.now) (name_at rest.now)) }
    ensures sound { OnOk result (Sound reader.new.macros) }
    ensures within { IfOk result (λ n. n ≤ length rest.now) }
    ensures known { IfErr result (CanShow (length names.new)) }
    ensures grows { Grows names.old names.new }
{
    match name_at(rest) {
        None => Err(Refusal::Fault(bad_directive(alloc, names, at, word)?)),
        Some(found) => define_name(alloc, names, reader, at, offset, word, rest, found),
    }
}

/// Carries out an `undef`.
pub fn undef(
    alloc: Global,
    names: &mut Names,
    reader: &mut Reader,
    at: Place,
    word: &[u8],
    rest: &[u8],
) -> Result<usize, Refusal>
    requires { Sound reader.old.macros }
    ensures read { Gives names.new (λ n. (state reader.new, n)) result
        (named at word.now (undef_name (state reader.old)) (name_at rest.now)) }
    ensures sound { OnOk result (Sound reader.new.macros) }
    ensures within { IfOk result (λ n. n ≤ length rest.now) }
    ensures known { IfErr result (CanShow (length names.new)) }
    ensures grows { Grows names.old names.new }
{
    match name_at(rest) {
        None => Err(Refusal::Fault(bad_directive(alloc, names, at, word)?)),
        Some((name, n)) => {
            set(&mut reader.macros, name, None)?;
            Ok(n)
        }
    }
}
