// Signals with their numbers among the names in reach.
ghost use Rattle.std.specs.Prelude.{◌≡◌, ◌<◌, ◌^◌, ◌∷◌, [], length, Some, None, map, OnOk};
ghost use Rattle.std.specs.Option.{option_map};
ghost use Rattle.width_rules.specs.Entries.{scope_of, around};
ghost use Rattle.width_rules.specs.Found.{meaning_of};
ghost use Rattle.gen_unroll.specs.Declarations.{declared};
ghost use Rattle.gen_unroll.specs.Views.{bit_range_of};
ghost use Rattle.gen_unroll.specs.ModuleViews.{signals_in};
ghost use Rattle.gen_unroll.specs.Numbers.{in_block_from};
ghost use Rattle.gen_unroll.specs.SignalViews.{signal_of, numbered_of};
ghost use Rattle.gen_unroll.specs.UnitReaches as u;

use crate::bit_range::BitRange;
use crate::block_id::BlockId;
use crate::block_signal::BlockSignal;
use crate::named_signal::NamedSignal;
use crate::signal_table::ModuleSignals;
use ls_text::NoMemory;
use typed_ir::{SignalId, SignalKind};
use width_rules::{Entry, Scope, SignalEntry, Writer};

// What may write a signal of this kind.
fn writer_by(settled: bool, kind: SignalKind) -> Writer
    ensures { result ≡ u.writer_by settled kind }
{
    match kind {
        SignalKind::Input => Writer::Nothing,
        SignalKind::Net => Writer::Continuous,
        SignalKind::Variable => {
            if settled {
                Writer::Combinational
            } else {
                Writer::Clocked
            }
        }
    }
}

/// Whether a signal is settled; one that the list doesn't have is not.
pub fn is_settled(settled: &[bool], signal: SignalId) -> bool
    ensures { result ≡ u.is_settled settled.now signal }
{
    let place = signal.index();
    place < settled.len() && settled[place]
}

// What may write the signal with this number.
fn writer_of(signals: &[NamedSignal], settled: &[bool], signal: SignalId) -> Writer
    ensures { result ≡ u.writer_of (u.is_settled settled.now) (map signal_of signals.now) signal }
{
    match signals.get(signal.index()) {
        Some(found) => writer_by(is_settled(settled, signal), found.kind),
        None => Writer::Nothing,
    }
}

// What a signal's name stands for.
fn entry_of(number: SignalId, range: Option<BitRange>, signed: bool, writer: Writer) -> Entry
    ensures { meaning_of result ≡ u.signal_meaning number (option_map bit_range_of range) signed writer }
{
    match range {
        Some(range) => Entry::Signal(SignalEntry {
            signal: number,
            width: range.width,
            lsb: range.low,
            signed,
            writer,
        }),
        None => Entry::Signal(SignalEntry {
            signal: number,
            width: 1,
            lsb: 0,
            signed,
            writer,
        }),
    }
}

// One signal more in reach.
fn enter(
    scope: &mut Scope,
    signals: &[NamedSignal],
    settled: &[bool],
    number: SignalId,
    signal: &NamedSignal,
) -> Result<(), NoMemory>
    ensures names { OnOk result (scope_of scope.new ≡ declared (scope_of scope.old) (signal_of signal.now).name
        (u.meaning_of_signal (u.writer_of (u.is_settled settled.now) (map signal_of signals.now)) number (signal_of signal.now))) }
    ensures around { OnOk result (around scope.new ≡ around scope.old) }
{
    let writer = writer_of(signals, settled, number);
    let entry = entry_of(number, signal.range, signal.signed, writer);
    scope.declare(signal.name.name, entry)
}

// These signals of a block.
fn enter_all(
    scope: &mut Scope,
    signals: &[NamedSignal],
    settled: &[bool],
    all: &[BlockSignal],
) -> Result<(), NoMemory>
    ensures names { OnOk result (scope_of scope.new
        ≡ u.all_signals (u.writer_of (u.is_settled settled.now) (map signal_of signals.now)) (map numbered_of all.now) (scope_of scope.old)) }
    ensures around { OnOk result (around scope.new ≡ around scope.old) }
{
    for one in all {
        enter(scope, signals, settled, one.number, &one.signal)?;
    }
    Ok(())
}

/// The signals of a block.
pub fn enter_block(
    scope: &mut Scope,
    of: &ModuleSignals,
    settled: &[bool],
    block: BlockId,
) -> Result<(), NoMemory>
    ensures names { OnOk result (scope_of scope.new
        ≡ u.with_signals (u.writer_of (u.is_settled settled.now) (signals_in of.now)) (signals_in of.now) (Some block.0) (scope_of scope.old)) }
    ensures around { OnOk result (around scope.new ≡ around scope.old) }
{
    let index = block.index();
    if index < of.blocks.len() {
        enter_all(scope, &of.signals, settled, &of.blocks[index])
    } else {
        Ok(())
    }
}

// A signal, where it is one of the module itself.
fn enter_if_own(
    scope: &mut Scope,
    signals: &[NamedSignal],
    settled: &[bool],
    number: SignalId,
    signal: &NamedSignal,
) -> Result<(), NoMemory>
    ensures names { OnOk result (scope_of scope.new
        ≡ u.all_signals (u.writer_of (u.is_settled settled.now) (map signal_of signals.now)) (in_block_from number None (signal_of signal.now ∷ [])) (scope_of scope.old)) }
    ensures around { OnOk result (around scope.new ≡ around scope.old) }
{
    match signal.block {
        None => enter(scope, signals, settled, number, signal),
        Some(_) => Ok(()),
    }
}

// Those of these signals that are the module's own.
fn enter_outermost(
    scope: &mut Scope,
    signals: &[NamedSignal],
    settled: &[bool],
) -> Result<(), NoMemory>
    requires { length signals.now < 2 ^ 32 }
    ensures names { OnOk result (scope_of scope.new
        ≡ u.all_signals (u.writer_of (u.is_settled settled.now) (map signal_of signals.now)) (in_block_from 0 None (map signal_of signals.now)) (scope_of scope.old)) }
    ensures around { OnOk result (around scope.new ≡ around scope.old) }
{
    for k in 0..signals.len() {
        enter_if_own(scope, signals, settled, SignalId(k as u32), &signals[k])?;
    }
    Ok(())
}

/// The signals of the module itself.
pub fn enter_own(scope: &mut Scope, of: &ModuleSignals, settled: &[bool]) -> Result<(), NoMemory>
    ensures names { OnOk result (scope_of scope.new
        ≡ u.with_signals (u.writer_of (u.is_settled settled.now) (signals_in of.now)) (signals_in of.now) None (scope_of scope.old)) }
    ensures around { OnOk result (around scope.new ≡ around scope.old) }
{
    enter_outermost(scope, &of.signals, settled)
}
