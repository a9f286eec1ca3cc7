// Where words are moved to, so that registers stand side by side, and so do their next values.
ghost use Rattle.std.specs.Prelude.{◌≡◌, ◌≤◌, ◌<◌, ◌+◌, ◌*◌, IsTrue, length, IfOk};
ghost use Rattle.std.specs.List.{swap};
ghost use Rattle.typed_ir.specs.Flats.{are_below};
ghost use Rattle.design_steps.specs.Moves.{gather, gathered};

use crate::design_layout::counted;
use crate::signal_words::place_above;
use ls_text::NoMemory;
use std::alloc::Global;
use typed_ir::SignalId;

// Swaps a place with one, and the place that lies so many above it with another.
fn swap_both(place: usize, count: usize, own: usize, next: usize, table: &mut [u32])
    requires there { place + count < length table.old }
    requires own { own < length table.old }
    requires next { next < length table.old }
    ensures { table.new ≡ swap (swap table.old place own) (place + count) next }
{
    let above = place_above(place, count, table.len());
    table.swap(place, own);
    table.swap(above, next);
}

// Swaps the places of registers with those from `own` on, and the places of their next values with those from `next` on.
fn gather(registers: &[SignalId], count: usize, own: usize, next: usize, table: &mut [u32])
    requires below { IsTrue (are_below registers.now count) }
    requires room { 2 * count < length table.old }
    requires own { own + length registers.now ≤ length table.old }
    requires next { next + length registers.now ≤ length table.old }
    ensures { table.new ≡ gather table.old count own next registers.now }
{
    let mut first = own;
    let mut second = next;
    for register in registers {
        let place = place_above(register.index(), 1, table.len());
        swap_both(place, count, first, second, table);
        first += 1;
        second += 1;
    }
}

/// Where each place is moved to, so that registers stand side by side behind all that is laid out of signals, in their order, and their next
/// values behind them. Want of memory, and a place above the largest number, is `NoMemory`.
pub fn places_of(alloc: Global, registers: &[SignalId], count: usize) -> Result<Vec<u32>, NoMemory>
    requires { IsTrue (are_below registers.now count) }
    ensures { IfOk result (λ places. places.items ≡ gathered count registers.now) }
{
    let many = registers.len();
    if count > 0x2fff_ffff || many > 0x2fff_ffff {
        return Err(NoMemory);
    }
    let first = 3 * count + 1;
    let mut places = counted(alloc, 0, (first + 2 * many) as u32)?;
    gather(registers, count, first, first + many, &mut places);
    Ok(places)
}
