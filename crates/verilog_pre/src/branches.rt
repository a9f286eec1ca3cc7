// Directives that open, continue and close conditionals.
ghost use Rattle.std.specs.Prelude.{◌≡◌, ◌≤◌, length, IfOk, IfErr, OnOk, false, true};
ghost use Rattle.ls_text.specs.Texts.{Grows};
ghost use Rattle.ls_text.specs.Readings.{Gives, CanShow};
ghost use Rattle.verilog_pre.specs.Conditionals.{continued, closed};
ghost use Rattle.verilog_pre.specs.Directives.{name_at};
ghost use Rattle.verilog_pre.specs.Reading.{named, ifdef_name, elsif_name, nest_or_bad, holds_if};
ghost use Rattle.verilog_pre.specs.States.{state};
ghost use Rattle.verilog_pre.specs.Tables.{Sound};

use crate::conditionals;
use crate::directives::name_at;
use crate::expand::bad_directive;
use crate::reader::Reader;
use crate::table::find;
use ls_text::{Names, Place, Refusal};
use std::alloc::Global;

/// Carries out an `ifdef`, or an `ifndef`, which is negated.
pub fn ifdef(
    alloc: Global,
    names: &mut Names,
    reader: &mut Reader,
    at: Place,
    negated: bool,
    word: &[u8],
    rest: &[u8],
) -> Result<usize, Refusal>
    requires { Sound reader.old.macros }
    ensures read { Gives names.new (λ n. (state reader.new, n)) result
        (named at word.now (ifdef_name at negated (state reader.old)) (name_at rest.now)) }
    ensures sound { OnOk result (Sound reader.new.macros) }
    ensures within { IfOk result (λ n. n ≤ length rest.now) }
    ensures known { IfErr result (CanShow (length names.new)) }
    ensures grows { Grows names.old names.new }
{
    match name_at(rest) {
        None => Err(Refusal::Fault(bad_directive(alloc, names, at, word)?)),
        Some((name, n)) => {
            let known = find(&mut reader.macros, name)?.is_some();
            let holds = if negated { !known } else { known };
            conditionals::begin(&mut reader.nest, at, negated, holds)?;
            Ok(n)
        }
    }
}

// Begins the next branch of a conditional, n bytes behind the word.
fn next_branch(
    alloc: Global,
    names: &mut Names,
    reader: &mut Reader,
    at: Place,
    word: &[u8],
    holds: bool,
    closing: bool,
    n: usize,
) -> Result<usize, Refusal>
    requires { Sound reader.old.macros }
    ensures read { Gives names.new (λ n. (state reader.new, n)) result
        (nest_or_bad at word.now (state reader.old) n (continued holds closing reader.old.nest.items)) }
    ensures sound { OnOk result (Sound reader.new.macros) }
    ensures count { IfOk result (λ m. m ≡ n) }
    ensures known { IfErr result (CanShow (length names.new)) }
    ensures grows { Grows names.old names.new }
{
    if conditionals::next(&mut reader.nest, holds, closing)? {
        Ok(n)
    } else {
        Err(Refusal::Fault(bad_directive(alloc, names, at, word)?))
    }
}

/// Carries out an `elsif`.
pub fn elsif(
    alloc: Global,
    names: &mut Names,
    reader: &mut Reader,
    at: Place,
    word: &[u8],
    rest: &[u8],
) -> Result<usize, Refusal>
    requires { Sound reader.old.macros }
    ensures read { Gives names.new (λ n. (state reader.new, n)) result
        (named at word.now (elsif_name at word.now (state reader.old)) (name_at rest.now)) }
    ensures sound { OnOk result (Sound reader.new.macros) }
    ensures within { IfOk result (λ n. n ≤ length rest.now) }
    ensures known { IfErr result (CanShow (length names.new)) }
    ensures grows { Grows names.old names.new }
{
    match name_at(rest) {
        None => Err(Refusal::Fault(bad_directive(alloc, names, at, word)?)),
        Some((name, n)) => {
            let known = find(&mut reader.macros, name)?.is_some();
            next_branch(alloc, names, reader, at, word, known, false, n)
        }
    }
}

/// Carries out an `else`.
pub fn otherwise(
    alloc: Global,
    names: &mut Names,
    reader: &mut Reader,
    at: Place,
    word: &[u8],
) -> Result<usize, Refusal>
    requires { Sound reader.old.macros }
    ensures read { Gives names.new (λ n. (state reader.new, n)) result
        (nest_or_bad at word.now (state reader.old) 0 (continued true true reader.old.nest.items)) }
    ensures sound { OnOk result (Sound reader.new.macros) }
    ensures within { IfOk result (λ n. n ≡ 0) }
    ensures known { IfErr result (CanShow (length names.new)) }
    ensures grows { Grows names.old names.new }
{
    next_branch(alloc, names, reader, at, word, true, true, 0)
}

/// Carries out an `endif`.
pub fn endif(
    alloc: Global,
    names: &mut Names,
    reader: &mut Reader,
    at: Place,
    word: &[u8],
) -> Result<usize, Refusal>
    requires { Sound reader.old.macros }
    ensures read { Gives names.new (λ n. (state reader.new, n)) result
        (nest_or_bad at word.now (state reader.old) 0 (closed reader.old.nest.items)) }
    ensures sound { OnOk result (Sound reader.new.macros) }
    ensures within { IfOk result (λ n. n ≡ 0) }
    ensures known { IfErr result (CanShow (length names.new)) }
    ensures grows { Grows names.old names.new }
{
    if conditionals::close(&mut reader.nest) {
        Ok(0)
    } else {
        Err(Refusal::Fault(bad_directive(alloc, names, at, word)?))
    }
}
