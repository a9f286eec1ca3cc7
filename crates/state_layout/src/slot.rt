// Slots of registers.
ghost use Rattle.std.specs.Prelude.{◌≤◌, ◌+◌};
ghost use Rattle.state_layout.specs.Slots.{slot_size};

/// The words of a register in a state: from `first` on, one where its width is at most 64, else two.
#[derive(Clone, Copy, Debug, PartialEq, Eq)]
pub struct Slot {
    pub first: u32,
    /// Its number of bits.
    pub width: u8,
    ghost at_least_one: { 1 ≤ width },
    ghost at_most_128: { width ≤ 128 },
    ghost few: { first + slot_size width ≤ 65536 },
}
