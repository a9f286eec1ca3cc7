// A port, as its instances see it.
ghost use Rattle.std.specs.Prelude.{◌≤◌};

use ls_text::NameId;

/// A port of a module: its name, whether it is an input, its number of bits, and whether it is signed.
#[derive(Clone, Copy, Debug, PartialEq, Eq)]
pub struct PortShape {
    pub name: NameId,
    pub input: bool,
    pub width: u8,
    pub signed: bool,
    ghost at_least_one: { 1 ≤ width },
    ghost at_most_128: { width ≤ 128 },
}
