// The lists that a unit has of its signals.
ghost use Rattle.std.specs.Prelude.{◌≡◌, ◌<◌, ◌^◌, ◌++◌, ◌∷◌, [], filter, length, map, IfOk, OnOk, if◌then◌else◌};
ghost use Rattle.typed_ir.specs.Shapes.{is_clock};
ghost use Rattle.typed_ir.specs.Units.{signal_within};
ghost use Rattle.gen_unroll.specs.ModuleViews.{signals_in, table_in};
ghost use Rattle.gen_unroll.specs.SignalViews.{signal_of};
ghost use Rattle.gen_unroll.specs.UnitLists as u;
ghost use Rattle.gen_unroll.specs.UnitReaches.{is_settled};

use crate::entering::is_settled;
use crate::named_signal::NamedSignal;
use crate::signal_table::ModuleSignals;
use ls_text::{NameId, NoMemory};
use std::alloc::Global;
use typed_ir::{SignalDeclaration, SignalId, SignalKind, UnitSignal};

// A signal that is called by this name in this module.
fn signal_called(in_module: NameId, name: NameId, signal: &NamedSignal) -> UnitSignal
    ensures { signal_within result ≡ u.signal_called in_module.0 name.0 (signal_of signal.now) }
{
    match signal.range {
        Some(range) => UnitSignal {
            in_module,
            name,
            lsb: range.low,
            signed: signal.signed,
            width: range.width,
            initial: 0,
        },
        None => UnitSignal {
            in_module,
            name,
            lsb: 0,
            signed: signal.signed,
            width: 1,
            initial: 0,
        },
    }
}

// What a signal is called, where these names are left for those within blocks.
fn called_by(names: &[NameId], signal: &NamedSignal) -> NameId
    ensures { result.0 ≡ u.called_by names.now (signal_of signal.now) }
{
    match signal.block {
        None => signal.name.name,
        Some(_) => match names.split_first() {
            Some((first, _)) => *first,
            None => signal.name.name,
        },
    }
}

// The names that are left behind a signal.
fn names_behind<'a>(names: &'a [NameId], signal: &NamedSignal) -> &'a [NameId]
    ensures { result.now ≡ u.names_behind names.now (signal_of signal.now) }
{
    match signal.block {
        None => names,
        Some(_) => match names.split_first() {
            Some((_, rest)) => rest,
            None => names,
        },
    }
}

// Signals with what they are called.
fn called(
    alloc: Global,
    in_module: NameId,
    names: &[NameId],
    signals: &[NamedSignal],
) -> Result<Vec<UnitSignal>, NoMemory>
    ensures { IfOk result (λ xs. map signal_within xs.items ≡ u.unit_signals in_module.0 names.now (map signal_of signals.now)) }
{
    let mut all = Vec::new(alloc);
    let mut rest = names;
    for signal in signals {
        all.push(signal_called(in_module, called_by(rest, signal), signal))?;
        rest = names_behind(rest, signal);
    }
    Ok(all)
}

/// The signals of a unit of this module. Those within blocks are called by these names, in the order of their numbers.
pub fn unit_signals(
    alloc: Global,
    in_module: NameId,
    names: &[NameId],
    of: &ModuleSignals,
) -> Result<Vec<UnitSignal>, NoMemory>
    ensures { IfOk result (λ xs. map signal_within xs.items ≡ u.unit_signals in_module.0 names.now (signals_in of.now)) }
{
    called(alloc, in_module, names, &of.signals)
}

fn declared(alloc: Global, signals: &[NamedSignal]) -> Result<Vec<SignalDeclaration>, NoMemory>
    ensures { IfOk result (λ ds. ds.items ≡ u.declarations_of (map signal_of signals.now)) }
{
    let mut all = Vec::new(alloc);
    for signal in signals {
        all.push(SignalDeclaration {
            kind: signal.kind,
            order: signal.order,
        })?;
    }
    Ok(all)
}

/// What the signals are declared as, by their numbers.
pub fn declarations(alloc: Global, of: &ModuleSignals) -> Result<Vec<SignalDeclaration>, NoMemory>
    ensures { IfOk result (λ ds. ds.items ≡ u.declarations_of (signals_in of.now)) }
{
    declared(alloc, &of.signals)
}

// Whether it is this clock.
fn is_clock(clock: Option<NameId>, name: NameId) -> bool
    ensures { result ≡ is_clock clock name }
{
    match clock {
        None => false,
        Some(clock) => clock.0 == name.0,
    }
}

// Whether it is an input, and not the clock.
fn is_data_input(clock: Option<NameId>, signal: &NamedSignal) -> bool
    ensures { result ≡ u.is_data_input clock (signal_of signal.now) }
{
    match signal.kind {
        SignalKind::Input => !is_clock(clock, signal.name.name),
        SignalKind::Net | SignalKind::Variable => false,
    }
}

// A number that is one of a list.
fn push_if(list: &mut Vec<SignalId>, yes: bool, number: SignalId) -> Result<(), NoMemory>
    ensures { OnOk result (list.new.items ≡ list.old.items ++ (if yes then number ∷ [] else [])) }
{
    if yes {
        list.push(number)?;
    }
    Ok(())
}

fn inputs_of(
    alloc: Global,
    clock: Option<NameId>,
    signals: &[NamedSignal],
) -> Result<Vec<SignalId>, NoMemory>
    requires { length signals.now < 2 ^ 32 }
    ensures { IfOk result (λ ks. ks.items ≡ u.data_inputs clock (map signal_of signals.now)) }
{
    let mut inputs = Vec::new(alloc);
    for k in 0..signals.len() {
        let yes = is_data_input(clock, &signals[k]);
        push_if(&mut inputs, yes, SignalId(k as u32))?;
    }
    Ok(inputs)
}

/// The numbers of the inputs but the clock, rising.
pub fn data_inputs(
    alloc: Global,
    clock: Option<NameId>,
    of: &ModuleSignals,
) -> Result<Vec<SignalId>, NoMemory>
    ensures { IfOk result (λ ks. ks.items ≡ u.data_inputs clock (signals_in of.now)) }
{
    inputs_of(alloc, clock, &of.signals)
}

// Whether the signal with this number is a variable that isn't settled.
fn is_register(signals: &[NamedSignal], settled: &[bool], number: SignalId) -> bool
    ensures { result ≡ u.is_register (is_settled settled.now) (map signal_of signals.now) number }
{
    match signals.get(number.index()) {
        Some(found) => match found.kind {
            SignalKind::Variable => !is_settled(settled, number),
            SignalKind::Input | SignalKind::Net => false,
        },
        None => false,
    }
}

fn registers_of(
    alloc: Global,
    signals: &[NamedSignal],
    settled: &[bool],
    numbers: &[SignalId],
) -> Result<Vec<SignalId>, NoMemory>
    ensures { IfOk result (λ ks. ks.items ≡ filter (u.is_register (is_settled settled.now) (map signal_of signals.now)) numbers.now) }
{
    let mut registers = Vec::new(alloc);
    for number in numbers {
        let yes = is_register(signals, settled, *number);
        push_if(&mut registers, yes, *number)?;
    }
    Ok(registers)
}

/// The numbers of the registers, which are the variables that aren't settled, in the order of their declarations.
pub fn registers(
    alloc: Global,
    settled: &[bool],
    of: &ModuleSignals,
) -> Result<Vec<SignalId>, NoMemory>
    ensures { IfOk result (λ ks. ks.items ≡ u.registers (is_settled settled.now) (table_in of.now)) }
{
    registers_of(alloc, &of.signals, settled, &of.declared)
}
