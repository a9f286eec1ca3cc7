// Numbers of registers.
ghost use Rattle.std.specs.Prelude.{◌≡◌};

use std::marker::Model;

/// The number of a register of a design, from 0: its place among the registers. Contracts see it as that number.
#[derive(Clone, Copy, Debug, PartialEq, Eq, Hash)]
pub struct RegisterId(pub usize);

impl Model for RegisterId {
    ghost use Rattle.std.specs.Prelude.{ℕ};

    ghost Value = { ℕ };

    ghost view = { λ s. s.0 };

    ghost inverse = { λ n. record { 0 = n } };
}

impl RegisterId {
    /// The place of the register in a list of all.
    pub fn index(self) -> usize
        ensures { result ≡ self }
    {
        self.0
    }
}
