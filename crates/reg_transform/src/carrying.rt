// The state that operations and the state of an older design leave the registers of a design.
ghost use Rattle.std.specs.Prelude.{◌≡◌, IfOk, length};
ghost use Rattle.std.specs.Option.{option_or};
ghost use Rattle.reg_transform.specs.Beginnings.{initials_in, reset_in};
ghost use Rattle.reg_transform.specs.Carrying.{carried, first_given, value_under};
ghost use Rattle.reg_transform.specs.Found.{created_in, key_of, name_of, renamed_in, value_in};
ghost use Rattle.reg_transform.specs.Numbers.{carried_by, numbers_in};
ghost use Rattle.reg_transform.specs.Registers.{widths_of};
ghost use Rattle.reg_transform.specs.Regs.{registers_in};
ghost use Rattle.state_layout.specs.Slots.{state_widths};

use crate::changes::{Changes, changes_of};
use crate::numbering::path_numbers;
use crate::old_values::{OldValues, old_values};
use crate::qualified_name::QualifiedName;
use crate::reading::{key_at, signal_at};
use crate::register_key::RegisterKey;
use crate::register_layout::RegisterLayout;
use crate::regs::Regs;
use bits::Bits;
use ls_text::NoMemory;
use reg_ops::RegOp;
use state_layout::SlotState;
use std::alloc::Global;
use typed_ir::RegisterId;

// The old value of the register that goes on as the one of this key, else that of the key itself.
fn kept(values: &OldValues, changes: &Changes, key: RegisterKey) -> Option<u128>
    ensures { result ≡ option_or (value_under (λ name. value_in values.now (record { number = key.instance; called = name })) key.called.in_module.0
        (renamed_in changes.now (name_of key.called))) (value_in values.now (key_of key)) }
{
    if let Some(from) = changes.renamed(key.called) {
        let called = QualifiedName {
            in_module: key.called.in_module,
            name: from,
        };
        let instance = key.instance;
        if let Some(value) = values.get(RegisterKey { instance, called }) {
            return Some(value);
        }
    }
    values.get(key)
}

// What the register of a key takes.
fn value_at(values: &OldValues, changes: &Changes, key: RegisterKey, initial: u128) -> u128
    ensures { result ≡ first_given (created_in changes.now (name_of key.called)) (renamed_in changes.now (name_of key.called))
        (λ name. value_in values.now (record { number = key.instance; called = name })) (name_of key.called) initial }
{
    if let Some(value) = changes.created(key.called) {
        return value;
    }
    match kept(values, changes, key) {
        Some(value) => value,
        None => initial,
    }
}

// The state into which registers are written: a share of the old one where registers have the same slots, so that pages in which no register
// takes another value stay shared with it; else zeros, which are one page.
fn base_of(
    alloc: Global,
    old: &RegisterLayout<'_>,
    new: &RegisterLayout<'_>,
    state: &SlotState,
) -> Result<SlotState, NoMemory>
    requires { state_widths state.now ≡ widths_of (registers_in old.now.regs) }
    ensures { IfOk result (λ base. state_widths base ≡ widths_of (registers_in new.now.regs)) }
{
    if old.slots.same(new.slots) {
        state.share()
    } else {
        SlotState::zeros(alloc, new.slots)
    }
}

// What these registers take, written into `base`, where these are the numbers of the instances' paths.
fn carried_into(
    alloc: Global,
    new: &Regs<'_>,
    numbers: &[usize],
    base: SlotState,
    values: &OldValues,
    ops: &[RegOp],
) -> Result<SlotState, NoMemory>
    requires numbered { length numbers.now ≡ length new.now.instances.now.rows.items }
    requires base { state_widths base ≡ widths_of (registers_in new.now) }
    ensures { IfOk result (λ s. s ≡ carried_by ops.now (value_in values.now) (numbers_in numbers.now new.now) (registers_in new.now) (initials_in new.now)) }
{
    let changes = changes_of(alloc, ops)?;
    let mut carried = base;
    for place in 0..new.registers.len() {
        let signal = signal_at(new, place);
        let key = key_at(numbers, signal);
        let value = value_at(values, &changes, key, signal.initial);
        carried.write(RegisterId(place), Bits::new(signal.width, value))?;
    }
    Ok(carried)
}

/// The state that the registers of the new design take: each the value that an operation creates it with, else the old value of the register
/// that is renamed to it, else the old value of its own name, both at the same path, else its initial value. A value is cut, or filled with
/// zeros, to its width. Registers are found by hash, in time in proportion to instances, registers and operations. Where both designs have
/// registers of the same widths in the same order, pages in which no register takes another value than it has in `state` are shared with that
/// one. It fails at want of memory alone.
pub fn carry_state(
    alloc: Global,
    old: &RegisterLayout<'_>,
    new: &RegisterLayout<'_>,
    ops: &[RegOp],
    state: &SlotState,
) -> Result<SlotState, NoMemory>
    requires state { state_widths state.now ≡ widths_of (registers_in old.now.regs) }
    ensures { IfOk result (λ s. s ≡ carried ops.now (registers_in old.now.regs) (registers_in new.now.regs) (reset_in new.now.regs) state.now) }
{
    let numbers = path_numbers(alloc, old.regs.instances, new.regs.instances)?;
    let values = old_values(alloc, &old.regs, &numbers.old, state)?;
    let base = base_of(alloc, old, new, state)?;
    carried_into(alloc, &new.regs, &numbers.new, base, &values, ops)
}
