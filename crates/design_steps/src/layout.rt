// Where everything stands among the words.
ghost use Rattle.std.specs.Prelude.{◌≡◌, slice_index};

use crate::constants::Constants;
use typed_ir::SignalId;

/// Where signals, next values of registers and constants stand among the words, and the widths of the signals. Signals are counted by
/// their numbers; one that isn't there stands at the place 0.
#[derive(Drop)]
pub struct Layout {
    /// Where each signal stands.
    pub slots: Vec<u32>,
    /// Where the next value of each register stands; what is there for any other signal is never read.
    pub nexts: Vec<u32>,
    /// The width of each signal.
    pub widths: Vec<u8>,
    pub constants: Constants,
}

impl Layout {
    /// Where a signal stands.
    pub fn slot(&self, signal: SignalId) -> u32
        ensures { result ≡ slice_index self.now.slots.items signal }
    {
        match self.slots.get(signal.index()) {
            Some(place) => *place,
            None => 0,
        }
    }

    /// Where the next value of a register stands.
    pub fn next(&self, signal: SignalId) -> u32
        ensures { result ≡ slice_index self.now.nexts.items signal }
    {
        match self.nexts.get(signal.index()) {
            Some(place) => *place,
            None => 0,
        }
    }

    /// The width of a signal.
    pub fn width(&self, signal: SignalId) -> u8
        ensures { result ≡ slice_index self.now.widths.items signal }
    {
        match self.widths.get(signal.index()) {
            Some(width) => *width,
            None => 0,
        }
    }
}
