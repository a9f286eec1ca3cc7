// Bits of a span that nothing has yet to runs of them, each with what drives or writes it.
ghost use Rattle.std.specs.Prelude.{◌≡◌, ◌≤◌, ◌<◌, ◌+◌, ◌&&◌, ◌==◌, ℕ, min, not, nat_le, nat_lt, false, IfOk};
ghost use Rattle.typed_ir.specs.Valuations.{within};
ghost use Rattle.typed_ir.specs.Touches.{has_bit};
ghost use Rattle.driver_rules.specs.Told.{free_run, Puts};

use crate::driver::Driver;
use crate::driver_id::DriverId;
use ls_text::NoMemory;
use typed_ir::{SignalId, Span};

// Whether a mask has a bit.
fn has_bit(mask: u128, i: u8) -> bool
    requires { i < 128 }
    ensures { result ≡ has_bit mask i }
{
    mask >> i & 1 == 1
}

// The place behind the last of so many bits, as far as a signal can go.
fn end_of(low: u8, width: u8) -> u8
    ensures { result ≡ min (low + width) 128 }
{
    (u16::from(low) + u16::from(width)).min(128) as u8
}

// Puts the bits of a signal from one to before another to the list, where there are any.
fn add_run(
    signal: SignalId,
    low: u8,
    end: u8,
    by: &DriverId,
    drivers: &mut Vec<Driver>,
) -> Result<(), NoMemory>
    requires { end ≤ 128 }
    ensures { IfOk result (λ _. Puts by.now drivers.old.items drivers.new.items (λ s i. (s == signal) && (nat_le low i && nat_lt i end))) }
{
    if low < end {
        let high = end - 1;
        drivers.push(Driver {
            signal,
            low,
            high,
            by: *by,
        })?;
    }
    Ok(())
}

// Goes on by one bit: the run from `low` on ends before a bit that the mask has, and the next one begins behind it.
fn go_on(
    mask: u128,
    signal: SignalId,
    low: u8,
    i: u8,
    by: &DriverId,
    drivers: &mut Vec<Driver>,
) -> Result<u8, NoMemory>
    requires inside { i < 128 }
    requires order { low ≤ i }
    requires free { (b : ℕ) → low ≤ b → b < i → has_bit mask b ≡ false }
    ensures order { IfOk result (λ next. (low ≤ next) × (next ≤ i + 1)) }
    ensures free { IfOk result (λ next. (b : ℕ) → next ≤ b → b < i + 1 → has_bit mask b ≡ false) }
    ensures puts { IfOk result (λ next. Puts by.now drivers.old.items drivers.new.items (free_run signal mask low next)) }
{
    if !has_bit(mask, i) {
        return Ok(low);
    }
    add_run(signal, low, i, by, drivers)?;
    Ok(i + 1)
}

/// Puts the bits of a span, below 128, that a mask doesn't have to the list, each run of them once. Want of memory is `NoMemory`.
pub fn add_runs(
    mask: u128,
    span: Span,
    by: &DriverId,
    drivers: &mut Vec<Driver>,
) -> Result<(), NoMemory>
    ensures { IfOk result (λ _. Puts by.now drivers.old.items drivers.new.items (λ s i. within span s i && not (has_bit mask i))) }
{
    let Span {
        signal,
        low: first,
        width,
    } = span;
    let end = end_of(first, width);
    let mut low = first;
    for i in first..end {
        low = go_on(mask, signal, low, i, by, drivers)?;
    }
    add_run(signal, low, end, by, drivers)
}
