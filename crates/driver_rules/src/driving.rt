// The items of a module to what drives or writes each of its bits, or to the first fault.
ghost use Rattle.std.specs.Prelude.{◌≡◌, [], length, IfOk, IfErr, OnOk};
ghost use Rattle.typed_ir.specs.Valuations.{nowhere};
ghost use Rattle.typed_ir.specs.Items.{items_of, unit_of};
ghost use Rattle.width_rules.specs.Faults.{IsFirst};
ghost use Rattle.driver_rules.specs.Writes.{AreItemsWithin};
ghost use Rattle.driver_rules.specs.Targets.{is_settled, all_target_faults};
ghost use Rattle.driver_rules.specs.Doubles.{double_faults};
ghost use Rattle.driver_rules.specs.Blocks.{block_faults};
ghost use Rattle.driver_rules.specs.DriverFaults.{driver_faults};
ghost use Rattle.driver_rules.specs.Driven.{AreNarrowItems, HasRoles, IsDriven};
ghost use Rattle.driver_rules.specs.Told.{AreTold, IsTold};

use crate::driver::Driver;
use crate::pathing::check_blocks;
use crate::settling::settled_signals;
use crate::taking::driven_bits;
use crate::targeting::check_targets;
use block_rules::whole_blocks;
use ls_text::Refusal;
use std::alloc::Global;
use typed_ir::TypedItems;

// What may be written by what, over all items.
fn check_written(alloc: Global, items: &TypedItems) -> Result<(), Refusal>
    ensures faultless { OnOk result (all_target_faults (items_of items.now).declarations (is_settled (items_of items.now).items) (items_of items.now).items ≡ []) }
    ensures fault { IfErr result (IsFirst (all_target_faults (items_of items.now).declarations (is_settled (items_of items.now).items) (items_of items.now).items)) }
{
    let settled = settled_signals(alloc, &items.items, items.declarations.len())?;
    check_targets(alloc, &items.declarations, &settled, &items.items)
}

// The bits with what drives or writes them, once all that is written has a declaration.
fn take_bits(alloc: Global, items: &TypedItems) -> Result<Vec<Driver>, Refusal>
    requires { AreItemsWithin (length (items_of items.now).declarations) (items_of items.now).items }
    ensures faultless { IfOk result (λ _. double_faults nowhere (items_of items.now).items ≡ []) }
    ensures told { IfOk result (λ drivers. AreTold (items_of items.now).items drivers.items) }
    ensures fault { IfErr result (IsFirst (double_faults nowhere (items_of items.now).items)) }
{
    driven_bits(alloc, items.declarations.len(), &items.items)
}

// The paths of the combinational blocks, likewise.
fn check_paths(alloc: Global, items: &TypedItems) -> Result<(), Refusal>
    requires { AreItemsWithin (length (items_of items.now).declarations) (items_of items.now).items }
    ensures faultless { OnOk result (block_faults (items_of items.now).signals (items_of items.now).declarations (items_of items.now).items ≡ []) }
    ensures fault { IfErr result (IsFirst (block_faults (items_of items.now).signals (items_of items.now).declarations (items_of items.now).items)) }
{
    check_blocks(alloc, &items.signals, &items.declarations, &items.items)
}

/// The bits that the items of a module drive or write, each with its item.
///
/// Faults, in this order: 33 BadTarget at the first item, and there at the earliest part, that writes what it may not; 34 MultipleDrivers
/// at the second of two items that have a bit, or at the later part of one assignment or connection; block by block 36 ReadBeforeWrite at
/// the earliest read of a bit that the block writes and hasn't written on every path to there, else 35 Latch at the block, with the signal
/// declared first that it doesn't write on every path. Else want of memory, also of 2^32 nodes or clocked blocks.
pub fn drivers(alloc: Global, items: &TypedItems) -> Result<Vec<Driver>, Refusal>
    ensures faultless { IfOk result (λ _. driver_faults (items_of items.now) ≡ []) }
    ensures fault { IfErr result (IsFirst (driver_faults (items_of items.now))) }
    ensures told { IfOk result (λ drivers. IsTold (items_of items.now) drivers.items) }
    ensures unit { IfOk result (λ _. AreNarrowItems (items_of items.now) → HasRoles (items_of items.now) → IsDriven (unit_of (items_of items.now))) }
{
    check_written(alloc, items)?;
    let drivers = take_bits(alloc, items)?;
    check_paths(alloc, items)?;
    whole_blocks();
    Ok(drivers)
}
