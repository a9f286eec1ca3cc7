// Operations on registers, worked out by hand: the fault of a list of operations, and what registers take.
ghost use Rattle.std.specs.Prelude.{◌≡◌, ◌<◌, IfOk, length};
ghost use Rattle.std.specs.Arc.{arc_value};
ghost use Rattle.typed_ir.specs.Flats.{are_below, are_within};
ghost use Rattle.reg_transform.specs.Registers.{widths_of};
ghost use Rattle.reg_transform.specs.Regs.{registers_in};
ghost use Rattle.state_layout.specs.Slots.{state_widths};

use crate::operation_row::OperationRow;
use crate::operation_rows::{BEFORE, BEHIND, FAULTS, KEPT, NEW, OLD, OLD_VALUES, TAKEN};
use bits::Bits;
use ls_text::{NameId, NoMemory, Refusal};
use reg_ops::RegOp;
use reg_transform::{OpRefusal, RegisterLayout, Regs, carry_state, check, signal_at};
use state_layout::{Layout, SlotState, laid_out};
use std::alloc::Global;
use std::process::Abort;
use std::sync::Arc;
use std::test::Fail;
use typed_ir::{InstanceId, InstanceName, InstanceTable, RegisterId, Signal, SignalId};

// Instances by what they stand in and their names.
fn instances(
    rt: &impl Abort,
    alloc: Global,
    list: &[(Option<u32>, u64)],
) -> Result<InstanceTable, NoMemory> {
    let mut rows = Vec::new(alloc);
    for (above, name) in list {
        let parent = match *above {
            Some(number) => Some(InstanceId(number)),
            None => None,
        };
        rows.push(InstanceName {
            parent,
            name: NameId(*name),
        })?;
    }
    Ok(InstanceTable::new(rows).expect(rt, "a table"))
}

// Signals by their instances, modules, names, widths and initial values.
fn signals(
    rt: &impl Abort,
    alloc: Global,
    list: &[(u32, u64, u64, u8, u128)],
) -> Result<Vec<Signal>, NoMemory> {
    let mut signals = Vec::new(alloc);
    for (instance, in_module, name, width, initial) in list {
        assert!(rt; 1 <= *width && *width <= 128);
        signals.push(Signal {
            in_module: NameId(*in_module),
            instance: InstanceId(*instance),
            name: NameId(*name),
            lsb: 0,
            signed: false,
            width: *width,
            initial: Bits::new(*width, *initial).value(),
        })?;
    }
    Ok(signals)
}

// The first signals, so many.
fn ids(alloc: Global, count: u32) -> Result<Vec<SignalId>, NoMemory> {
    let mut ids = Vec::new(alloc);
    for number in 0..count {
        ids.push(SignalId(number))?;
    }
    Ok(ids)
}

// Whether all numbers are below a count.
fn are_below(signals: &[SignalId], count: usize) -> bool
    ensures { result ≡ are_below signals.now count }
{
    for signal in signals {
        if signal.index() >= count {
            return false;
        }
    }
    true
}

// Whether each signal names one of so many instances.
fn are_within(signals: &[Signal], count: usize) -> bool
    ensures { result ≡ are_within signals.now count }
{
    for signal in signals {
        if signal.instance.index() >= count {
            return false;
        }
    }
    true
}

// The registers of a design.
fn regs<'a>(
    rt: &impl Abort,
    instances: &'a InstanceTable,
    signals: &'a [Signal],
    registers: &'a [SignalId],
) -> Regs<'a> {
    let count = instances.rows.len();
    assert!(rt; are_below(registers, signals.len()));
    assert!(rt; are_within(signals, count));
    Regs {
        instances,
        signals,
        registers,
    }
}

// Where registers stand in a state.
fn slots_of(alloc: Global, regs: &Regs<'_>) -> Result<Arc<Layout, Global>, Refusal>
    ensures { IfOk result (λ slots. arc_value slots ≡ widths_of (registers_in regs.now)) }
{
    let layout = laid_out(alloc, regs.signals, regs.registers)?;
    Ok(Arc::new(alloc, layout)?)
}

// The operation of a row.
fn operation(row: OperationRow) -> RegOp {
    match row {
        OperationRow::Rename(in_module, from, to) => RegOp::Rename {
            in_module: NameId(in_module),
            from: NameId(from),
            to: NameId(to),
        },
        OperationRow::Create(in_module, reg, value) => RegOp::Create {
            in_module: NameId(in_module),
            reg: NameId(reg),
            value: u128::from(value),
        },
        OperationRow::Delete(in_module, reg) => RegOp::Delete {
            in_module: NameId(in_module),
            reg: NameId(reg),
        },
    }
}

fn operations(alloc: Global, rows: &[OperationRow]) -> Result<Vec<RegOp>, NoMemory> {
    let mut ops = Vec::new(alloc);
    for row in rows {
        ops.push(operation(*row))?;
    }
    Ok(ops)
}

// The state in which registers have these values.
fn state_of(
    alloc: Global,
    layout: &RegisterLayout<'_>,
    values: &[u128],
) -> Result<SlotState, NoMemory>
    ensures { IfOk result (λ s. state_widths s ≡ widths_of (registers_in layout.now.regs)) }
{
    let mut state = Vec::new(alloc);
    for place in 0..layout.regs.registers.len() {
        let signal = signal_at(&layout.regs, place);
        let value = match values.get(place) {
            Some(value) => *value,
            None => 0,
        };
        state.push(Bits::new(signal.width, value))?;
    }
    SlotState::filled(alloc, layout.slots, &state)
}

// The numbers of a state.
fn values_of(alloc: Global, state: &SlotState) -> Result<Vec<u128>, NoMemory> {
    let mut values = Vec::new(alloc);
    for i in 0..state.len() {
        values.push(state.read(RegisterId(i)).value())?;
    }
    Ok(values)
}

// The place, the code, the module and the register of the first fault.
fn fault_of(
    alloc: Global,
    old: &Regs<'_>,
    new: &Regs<'_>,
    ops: &[RegOp],
) -> Result<Option<(usize, u8, u64, u64)>, NoMemory> {
    match check(alloc, old, new, ops) {
        Ok(()) => Ok(None),
        Err(OpRefusal::Breaks(fault)) => Ok(Some((
            fault.index,
            fault.code,
            fault.in_module.0,
            fault.register.0,
        ))),
        Err(OpRefusal::NoMemory) => Err(NoMemory),
    }
}

// What the registers of the new design take from a state of the old one.
fn taken(
    alloc: Global,
    old: &RegisterLayout<'_>,
    new: &RegisterLayout<'_>,
    rows: &[OperationRow],
    state: &SlotState,
) -> Result<Vec<u128>, NoMemory>
    requires { state_widths state.now ≡ widths_of (registers_in old.now.regs) }
{
    let ops = operations(alloc, rows)?;
    let taken = carry_state(alloc, old, new, &ops, state)?;
    values_of(alloc, &taken)
}

// Both designs have the top and two instances in it.
#[test]
fn first_faults(rt: HostRuntime) -> Result<(), Fail> {
    let alloc = rt.alloc();
    let instances = instances(&rt, alloc, &[(None, 100), (Some(0), 101), (Some(0), 102)])?;
    let old_signals = signals(&rt, alloc, BEFORE)?;
    let new_signals = signals(&rt, alloc, BEHIND)?;
    let old_ids = ids(alloc, 5)?;
    let new_ids = ids(alloc, 6)?;
    let old = regs(&rt, &instances, &old_signals, &old_ids);
    let new = regs(&rt, &instances, &new_signals, &new_ids);
    for (rows, wanted) in FAULTS {
        let ops = operations(alloc, rows)?;
        assert_eq!(rt; fault_of(alloc, &old, &new, &ops)?, *wanted);
    }
    Ok(())
}

// The top 100 and its instances 101 and 102 become the top with the instances 103 and 101, so 101 has another number.
#[test]
fn registers_take(rt: HostRuntime) -> Result<(), Fail> {
    let alloc = rt.alloc();
    let old_instances = instances(&rt, alloc, &[(None, 100), (Some(0), 101), (Some(0), 102)])?;
    let new_instances = instances(&rt, alloc, &[(None, 100), (Some(0), 103), (Some(0), 101)])?;
    let old_signals = signals(&rt, alloc, OLD)?;
    let new_signals = signals(&rt, alloc, NEW)?;
    let old_ids = ids(alloc, 5)?;
    let new_ids = ids(alloc, 7)?;
    let old_regs = regs(&rt, &old_instances, &old_signals, &old_ids);
    let new_regs = regs(&rt, &new_instances, &new_signals, &new_ids);
    let old_slots = slots_of(alloc, &old_regs)?;
    let new_slots = slots_of(alloc, &new_regs)?;
    let old = RegisterLayout {
        regs: old_regs,
        slots: &old_slots,
    };
    let new = RegisterLayout {
        regs: new_regs,
        slots: &new_slots,
    };
    let state = state_of(alloc, &old, OLD_VALUES)?;
    for (rows, wanted) in TAKEN {
        let values = taken(alloc, &old, &new, rows, &state)?;
        assert_eq!(rt; values.as_slice(), *wanted);
    }
    for (rows, wanted) in KEPT {
        let values = taken(alloc, &old, &old, rows, &state)?;
        assert_eq!(rt; values.as_slice(), *wanted);
    }
    Ok(())
}
