// The words that declare, and those of whole blocks.
//
//     top:N instance:P:N  the top instance of the name of number N, and one in instance P
//     wire:W input:W      a signal of W bits
//     reg:W:V             a register of W bits that has V at the beginning
//     register:I:M:N:W:V  the same in instance I, of module M and with name N
//     assign:I:W          assign I = E; where W bits are all of signal I
//     always              a clocked block of all statements before it
//     after:N             the registers after N cycles
ghost use Rattle.std.specs.Prelude.{◌≤◌};

use crate::made::Made;
use crate::statements::{lanes_of, sequence, takes_arm};
use crate::word::Word;
use bits::Bits;
use ls_text::{NameId, NoMemory};
use std::alloc::Global;
use typed_ir::{InstanceId, InstanceName, Node, Signal, SignalId, TargetForm};

// The number of the next signal.
fn next(made: &Made) -> u32 {
    made.signals.len().min(4_294_967_295) as u32
}

// A signal of the top module, of the name of its number.
fn declare(made: &mut Made, width: u8, initial: u128) -> Result<SignalId, NoMemory>
    requires at_least_one { 1 ≤ width }
    requires at_most_128 { width ≤ 128 }
{
    let number = next(made);
    made.signals.push(Signal {
        in_module: NameId(0),
        instance: InstanceId(0),
        name: NameId(u64::from(number)),
        lsb: 0,
        signed: false,
        width,
        initial: Bits::new(width, initial).value(),
    })?;
    Ok(SignalId(number))
}

// A register of any instance.
fn declare_in(made: &mut Made, word: &Word) -> Result<(), NoMemory> {
    let number = next(made);
    let width = word.width(3);
    made.signals.push(Signal {
        in_module: NameId(word.longer(1)),
        instance: InstanceId(word.long(0)),
        name: NameId(word.longer(2)),
        lsb: 0,
        signed: false,
        width,
        initial: Bits::new(width, word.number(4)).value(),
    })?;
    made.registers.push(SignalId(number))?;
    Ok(())
}

fn instance(made: &mut Made, parent: Option<InstanceId>, name: u64) -> Result<(), NoMemory> {
    let name = NameId(name);
    made.instances.push(InstanceName { parent, name })?;
    Ok(())
}

// A continuous assignment of the last expression; false where there is none.
fn assign(alloc: Global, made: &mut Made, word: &Word) -> Result<bool, NoMemory> {
    let lanes = lanes_of(alloc, word)?;
    match made.expressions.pop() {
        Some(value) => {
            made.nodes.push(Node::Drive {
                form: TargetForm::Name,
                lanes,
                value,
            })?;
            Ok(true)
        }
        None => Ok(false),
    }
}

fn reg(made: &mut Made, word: &Word) -> Result<(), NoMemory> {
    let signal = declare(made, word.width(0), word.number(1))?;
    made.registers.push(signal)?;
    Ok(())
}

fn input(made: &mut Made, word: &Word) -> Result<(), NoMemory> {
    let signal = declare(made, word.width(0), 0)?;
    made.inputs.push(signal)?;
    Ok(())
}

fn always(alloc: Global, made: &mut Made) -> Result<(), NoMemory> {
    let block = sequence(alloc, made);
    made.clocked.push(block)?;
    Ok(())
}

/// Takes a word that declares, or one of a whole block; false where it is none, or what it takes is missing.
pub fn takes_declaration(alloc: Global, made: &mut Made, word: &Word) -> Result<bool, NoMemory> {
    match word.name {
        b"top" => instance(made, None, word.longer(0))?,
        b"instance" => instance(made, Some(InstanceId(word.long(0))), word.longer(1))?,
        b"wire" => {
            declare(made, word.width(0), 0)?;
        }
        b"input" => input(made, word)?,
        b"reg" => reg(made, word)?,
        b"register" => declare_in(made, word)?,
        b"always" => always(alloc, made)?,
        b"after" => made.cycles.push(word.longer(0))?,
        b"assign" => return assign(alloc, made, word),
        b"arm" => return takes_arm(alloc, made, word),
        _ => return Ok(false),
    }
    Ok(true)
}
