// Whether a bit has two drivers, and whether signals have none.
ghost use Rattle.std.specs.Prelude.{◌≡◌};
ghost use Rattle.comb_order.specs.Parts.{are_apart, rows_apart, is_idle, are_idle, are_undriven};

use crate::drivers::Driver;
use crate::edges::{drivers_at, meet};
use typed_ir::SignalId;

// Whether no two masks of a row share a bit.
fn are_apart(row: &[Driver]) -> bool
    ensures { result ≡ are_apart 0 row.now }
{
    let mut taken = 0u128;
    for driver in row {
        if meet(taken, driver.mask) {
            return false;
        }
        taken |= driver.mask;
    }
    true
}

/// Whether in no row two masks share a bit.
pub fn rows_apart(table: &[Vec<Driver>]) -> bool
    ensures { result ≡ rows_apart table.now }
{
    for row in table {
        if !are_apart(row) {
            return false;
        }
    }
    true
}

// Whether a driver drives no bit.
fn is_idle(driver: Driver) -> bool
    ensures { result ≡ is_idle driver }
{
    driver.mask == 0
}

// Whether the drivers of a row drive no bit.
fn are_idle(row: &[Driver]) -> bool
    ensures { result ≡ are_idle row.now }
{
    for driver in row {
        if !is_idle(*driver) {
            return false;
        }
    }
    true
}

/// Whether no bit of these signals has a driver.
pub fn are_undriven(table: &[Vec<Driver>], signals: &[SignalId]) -> bool
    ensures { result ≡ are_undriven table.now signals.now }
{
    for signal in signals {
        if !are_idle(drivers_at(table, *signal)) {
            return false;
        }
    }
    true
}
