// Nets and variables of a module.
ghost use Rattle.std.specs.Prelude.{◌≤◌, ◌<◌, ◌^◌};

use ls_text::NameId;

/// A net or variable of a module.
#[derive(Clone, Copy, Debug, PartialEq, Eq)]
pub struct UnitSignal {
    /// The module that declares it.
    pub in_module: NameId,
    pub name: NameId,
    /// The lower bound of its declared range, 0 without a range.
    pub lsb: u32,
    pub signed: bool,
    /// Its number of bits.
    pub width: u8,
    /// What it has at the beginning, where it is a register.
    pub initial: u128,
    ghost at_least_one: { 1 ≤ width },
    ghost at_most_128: { width ≤ 128 },
    ghost fits: { initial < 2 ^ width },
}
