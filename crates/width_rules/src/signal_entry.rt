// What a scope knows of a net or variable.
ghost use Rattle.std.specs.Prelude.{◌≤◌, ◌<◌, ◌^◌};

use crate::writer::Writer;
use typed_ir::SignalId;

/// A net or variable: its number, its width of 1 to 128 bits, the lower bound of its range (0 without one, at most 2^31 - 1), its
/// sign, and what may write it.
#[derive(Clone, Copy, Debug)]
pub struct SignalEntry {
    pub signal: SignalId,
    pub width: u8,
    pub lsb: u32,
    pub signed: bool,
    pub writer: Writer,
    ghost at_least_one: { 1 ≤ width },
    ghost at_most_128: { width ≤ 128 },
    ghost below: { lsb < 2 ^ 31 },
}
